// Random archives, against a book of trials whose cells are counted one by one. Prints how many differ.
#![tactic(auto)]

ghost use Rattle.std.specs.Prelude.{◌≤◌};

use hypervolume::Point;
use refusals::Refusal;
use testing::{at, noise, one, point_at};

// The book has a place for each trial 1 to 8, three coordinates: 2,000,000 where the trial is not held, so that it
// dominates no cell. Place 0 stays so.
fn held(book: &[u32], n: usize) -> bool {
    point_at(book, n).at[0] < 2000000
}

fn write(book: &mut [u32], i: usize, x: u32) {
    if i < book.len() {
        book[i] = x;
    }
}

fn enter(book: &mut [u32], n: usize, p: Point) {
    let from = 3 * (n % 16);
    let at = p.at;
    write(book, from, at[0]);
    write(book, from + 1, at[1]);
    write(book, from + 2, at[2]);
}

fn forget(book: &mut [u32], n: usize) {
    enter(
        book,
        n,
        Point {
            at: [2000000, 2000000, 2000000],
        },
    );
}

// The cells that the trial alone dominates; 0 where it is not held.
fn contribution(book: &[u32], reference: Point, n: usize) -> u64 {
    testing::cells(book, reference, point_at(book, n), 1, 1)
}

// The least contributor, if there is one; among equals the lowest number by rule 0, the highest by rule 1.
fn least(book: &[u32], reference: Point, rule: u64) -> Option<usize> {
    let mut found = None;
    let mut bound: u64 = 1000;
    for n in 1..9usize {
        let c = contribution(book, reference, n);
        if held(book, n) && (c < bound || c == bound && rule == 1) {
            found = Some(n);
            bound = c;
        }
    }
    found
}

// Whether p is at most equal to q on all axes and smaller on at least one.
fn beats(p: Point, q: Point) -> bool {
    let a = p.at;
    let b = q.at;
    let at_most = a[0] <= b[0] && a[1] <= b[1] && a[2] <= b[2];
    at_most && (a[0] < b[0] || a[1] < b[1] || a[2] < b[2])
}

// Whether some trial held beats this one.
fn beaten(book: &[u32], n: usize) -> bool {
    (1..9usize).any(|m| held(book, m) && beats(point_at(book, m), point_at(book, n)))
}

// How many trials are on the front.
fn front(book: &[u32]) -> u64 {
    (1..9usize)
        .filter(|n| held(book, *n) && !beaten(book, *n))
        .count() as u64
}

// The kept contribution of a trial, among the first 8 records.
fn kept(w: &[u64], number: u64) -> u64 {
    for k in 0..8usize {
        if at(w, 8 + 5 * k) == number {
            return at(w, 12 + 5 * k);
        }
    }
    0
}

// The cells that both and no third dominate.
fn joint(book: &[u32], reference: Point, n: usize, m: usize) -> Result<u64, Refusal> {
    if !held(book, n) || !held(book, m) {
        return Err(Refusal::NotHeld);
    }
    if n == m {
        return Err(Refusal::SameNumber);
    }
    let corner = point_at(book, n).join(point_at(book, m));
    Ok(testing::cells(book, reference, corner, 2, 2))
}

// 1 where the joint contribution of two trials is so.
fn joint_agrees(book: &[u32], reference: Point, w: &[u64], n: usize, m: usize) -> u64
    ensures { result ≤ 1 }
{
    one(ask::joint(w, n as u64, m as u64) == joint(book, reference, n, m))
}

// Whether the total, the front, the contributions and joint contributions are the counts. The trials go in pairs n, n + step.
fn agrees(book: &[u32], reference: Point, w: &[u64], step: usize) -> bool {
    let mut right: u64 = 0;
    for n in 1..9usize {
        let own = one(kept(w, n as u64) == contribution(book, reference, n));
        right = right % 100 + own + joint_agrees(book, reference, w, n, 1 + (n + step % 8) % 8);
    }
    let total = testing::cells(book, reference, Point { at: [0, 0, 0] }, 1, 9);
    right == 16 && at(w, 5) == total && at(w, 6) == front(book)
}

// A coordinate: a third of them beyond the reference, by one, by two or at the limit; the others up to it, often half.
fn coordinate(set: u64, axis: u64, i: u64, reference: u32) -> u32 {
    let chosen = noise(set, axis, i);
    if chosen / 8 % 3 == 0 {
        let past = (chosen / 24 % 3) as u32;
        return if past < 2 {
            reference % 8 + 1 + past
        } else {
            1048576
        };
    }
    let x = (chosen % 8) as u32;
    if x <= reference { x } else { reference / 2 }
}

fn somewhere(reference: Point, set: u64, i: u64) -> Point {
    let limit = reference.at;
    Point {
        at: [
            coordinate(set, 0, i, limit[0]),
            coordinate(set, 1, i, limit[1]),
            coordinate(set, 2, i, limit[2]),
        ],
    }
}

// Whether the gain of a point is the count of the cells that it alone dominates.
fn gain_agrees(book: &[u32], reference: Point, w: &[u64], p: Point) -> bool {
    let at = p.at;
    let gain = ask::gain(w, at[0] as u64, at[1] as u64, at[2] as u64);
    gain == Ok(testing::cells(book, reference, p, 0, 0))
}

// Whether the least contributor that is dropped has this number and contribution.
fn drops(w: &mut [u64], rule: u64, number: u64, due: u64) -> bool {
    let mut log = [0u64; 2];
    let count = at(w, 0);
    if count == 0 {
        return false;
    }
    let least = ask::least(w, rule);
    reduction::reduce(w, count - 1, rule, &mut log) == Ok(1)
        && log == [number, due]
        && least.is_ok_and(|l| l.number == number && l.contribution == due)
}

// Drops the least contributor from both; where there is none, none is held.
fn drop_least(book: &mut [u32], reference: Point, w: &mut [u64], rule: u64) -> bool {
    let Some(n) = least(book, reference, rule) else {
        return at(w, 0) == 0;
    };
    let due = contribution(book, reference, n);
    forget(book, n);
    drops(w, rule, n as u64, due)
}

fn inserts(w: &mut [u64], number: u64, p: Point) -> bool {
    let at = p.at;
    insertion::insert(w, number, at[0] as u64, at[1] as u64, at[2] as u64).is_ok()
}

// The same by a grid that has the trial twice, so that its number stops it the second time.
fn fills(w: &mut [u64], number: u64, p: Point) -> bool {
    let x = p.at[0] as u64;
    let y = p.at[1] as u64;
    let z = p.at[2] as u64;
    let filled = grid::insert_grid(w, &[number, x, y, z, number, x, y, z]);
    filled.is_ok_and(|f| f.inserted == 1 && f.stop == Some(Refusal::NumberHeld))
}

// One call on both: an insertion, alone or by a grid, a removal of the held, or a reduction by one.
fn step(book: &mut [u32], reference: Point, w: &mut [u64], set: u64, i: u64) -> bool {
    let chosen = noise(set, 3, i);
    let n = (1 + chosen % 8) as usize;
    if chosen / 8 % 8 == 0 {
        return drop_least(book, reference, w, chosen / 64 % 2);
    }
    if held(book, n) {
        forget(book, n);
        return removal::remove(w, n as u64).is_ok();
    }
    let p = somewhere(reference, set, i);
    enter(book, n, p);
    if chosen / 64 % 2 == 0 {
        return fills(w, n as u64, p);
    }
    inserts(w, n as u64, p)
}

// Whether the archive agrees with the book after a call, and on a point to gain.
fn agrees_after(book: &[u32], reference: Point, w: &[u64], set: u64, i: u64) -> bool {
    agrees(book, reference, w, (i % 8) as usize)
        && gain_agrees(book, reference, w, somewhere(reference, set, i % 12 + 1))
}

// 1 where a call comes out as it should.
fn turn(book: &mut [u32], reference: Point, w: &mut [u64], set: u64, i: u64) -> u64
    ensures { result ≤ 1 }
{
    let done = step(book, reference, w, set, i);
    let right = agrees_after(book, reference, w, set, i);
    one(done && right)
}

// Twelve calls on an archive, compared with the book after each.
fn lives(book: &mut [u32], reference: Point, w: &mut [u64], set: u64) -> bool {
    let mut right: u64 = 0;
    for i in 0..12u64 {
        right = right % 100 + turn(book, reference, w, set, i);
    }
    ask::audit(w) == Ok(true) && right == 12
}

// The archive of this number.
fn archive_agrees(set: u64) -> bool {
    let mut book = [2000000u32; 27];
    let mut w = [7u64; 48];
    let reference = Point {
        at: [
            (1 + noise(set, 0, 15) % 6) as u32,
            (1 + noise(set, 1, 15) % 6) as u32,
            (1 + noise(set, 2, 15) % 6) as u32,
        ],
    };
    let r = reference.at;
    insertion::start(&mut w, r[0] as u64, r[1] as u64, r[2] as u64, 8).is_ok()
        && lives(&mut book, reference, &mut w, set)
}

// How many of a hundred archives differ.
fn differing() -> u64 {
    (0..100u64).filter(|set| !archive_agrees(*set)).count() as u64
}

fn main(rt: HostRuntime) {
    testing::print(&rt, "random: 100 archives, ", differing());
    let _ = println!(rt; " differ");
}
