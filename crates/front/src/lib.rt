// How many of the points are on the front. They stand in the archive's order, z, then y, then x, so that only an earlier one
// beats a later one, and equal ones stand beside each other: a point is beaten just when one that stands before the first of
// its equals is at most it on x and y. The points are taken by ascending x; whether one taken before stands earlier and is
// at most on y is told by the least y over the places before, kept in three levels of eight. Nothing is searched, and hardly
// a branch depends on how points compare.
#![tactic(auto)]

ghost use Rattle.std.specs.Prelude.{◌≡◌, ◌+◌, ◌*◌, ◌/◌, ◌%◌, ◌≤◌, ◌<◌, min, leb, ltb, eqb, length, take, get_or};
ghost use Rattle.slices.specs.Choices.{both, pick};
ghost use Rattle.hypervolume.specs.Cells.{holds};
ghost use Rattle.hypervolume.specs.Front.{front};
ghost use Rattle.hypervolume.specs.Sorted.{Small};
ghost use Rattle.front.specs.Keys.{InOrder, standing, Sieved, alone};
ghost use Rattle.front.specs.Levels.{Bounded, Extra, Lowered, Entered, Empty, Placed};

use hypervolume::{Point, point_at};
use order::order;
use slices::both;

// A point's y, entered at a place of a level: it counts for the places behind it among the same eight. For the others as much is
// put on it as makes it count for nothing; a test for each place would take twice as long.
fn lower(level: &mut [u32], at: usize, y: u32, extra: &[u32])
    requires { (at < length level.old) × (length level.old % 8 ≡ 0) × Bounded level.old × (y ≤ 2097152) × Extra extra.now }
    ensures { Lowered level.old at y level.new }
{
    let start = at / 8 * 8;
    let from = 7 - at % 8;
    for k in 0..8usize {
        let v = start + k;
        level[v] = (y + extra[from + k]).min(level[v]);
    }
}

// The least y of the points taken before that stand before place g.
fn least(high: &[u32], middle: &[u32], low: &[u32], g: usize) -> u32
    requires { (length high.now ≡ 8) × (length middle.now ≡ 64) × (length low.now ≡ 512) × (g < 512) }
    ensures { result ≡ min (get_or high.now (g / 64) 0) (min (get_or middle.now (g / 8) 0) (get_or low.now g 0)) }
{
    high[g / 64].min(middle[g / 8].min(low[g]))
}

// One point more, whose equals begin at place g: whether none taken before stands earlier and is at most it on y. Its y is
// entered in the levels. They are three slices and no struct: the lowest lies in the words of the keys, which saves 2 KiB of stack.
fn enter(
    high: &mut [u32],
    middle: &mut [u32],
    low: &mut [u32],
    g: usize,
    y: u32,
    extra: &[u32],
) -> bool
    requires { (length high.old ≡ 8) × (length middle.old ≡ 64) × (length low.old ≡ 512) × (g < 512) × Bounded high.old × Bounded middle.old × Bounded low.old × (y ≤ 2097152) × Extra extra.now }
    ensures { Entered high.old middle.old low.old g y (holds result) high.new middle.new low.new }
{
    let alone = y < least(high, middle, low, g);
    lower(high, g / 64, y, extra);
    lower(middle, g / 8, y, extra);
    lower(low, g, y, extra);
    alone
}

// How many keys, taken in this order, have none before them that stands earlier and is at most them on y. The levels are
// empty.
fn count(
    points: &[[u32; 3]],
    keys: &[u32],
    high: &mut [u32],
    middle: &mut [u32],
    low: &mut [u32],
    extra: &[u32],
) -> u64
    requires { InOrder points.now × Placed points.now keys.now × Empty 8 high.old × Empty 64 middle.old × Empty 512 low.old × Extra extra.now }
    ensures { result ≡ alone points.now keys.now (length keys.now) }
{
    let mut unbeaten: u64 = 0;
    for key in keys {
        let g = (*key % 512) as usize;
        let y = point_at(points, g).at[1];
        let alone = enter(high, middle, low, g, y, extra);
        unbeaten += u64::from(alone);
    }
    unbeaten
}

// A point's x and y, and the place where its equals begin.
#[derive(Clone, Copy)]
struct Seen {
    x: u32,
    y: u32,
    first: usize,
}

impl Seen {
    // Whether this point beats another.
    fn beats(self, other: Seen) -> bool
        ensures { result ≡ both (ltb self.first other.first) (both (leb self.x other.x) (leb self.y other.y)) }
    {
        both(
            self.first < other.first,
            both(self.x <= other.x, self.y <= other.y),
        )
    }

    // The one of the least x + y: another point, or this one where they are alike.
    fn better(self, other: Seen) -> Seen
        requires { (self.x ≤ 2097152) × (self.y ≤ 2097152) × (other.x ≤ 2097152) × (other.y ≤ 2097152) }
        ensures { result ≡ pick (ltb (other.x + other.y) (self.x + self.y)) other self }
    {
        if other.x + other.y < self.x + self.y {
            other
        } else {
            self
        }
    }
}

// z, then y, then x, as one number.
fn standing(p: Point) -> u64
    requires { Small p.at }
    ensures { result ≡ (get_or p.at 2 0 * 2097152 + get_or p.at 1 0) * 2097152 + get_or p.at 0 0 }
{
    (p.at[2] as u64 * 2097152 + p.at[1] as u64) * 2097152 + p.at[0] as u64
}

// Where the equals of the point at place i begin: with it, unless it stands as the one before.
fn begin(before: u64, now: u64, first: usize, i: usize) -> usize
    ensures { result ≡ pick (eqb before now) first i }
{
    if before == now { first } else { i }
}

// The keys of the points, without those that the best before them beats. Answers how many there are.
fn sieve(points: &[[u32; 3]], keys: &mut [u32]) -> usize
    requires { InOrder points.now × (length points.now ≤ length keys.old) }
    ensures { (result ≤ length points.now) × Sieved points.now (length points.now) (take result keys.new) }
{
    // Beyond all coordinates and beyond every standing: what no point has. An Option would be one more test for each point.
    let mut best = Seen {
        x: 2097152,
        y: 2097152,
        first: 0,
    };
    let mut stood: u64 = 9223372036854775808;
    let mut first: usize = 0;
    let mut m: usize = 0;
    for i in 0..points.len() {
        let p = point_at(points, i);
        let now = standing(p);
        first = begin(stood, now, first, i);
        stood = now;
        let seen = Seen {
            x: p.at[0],
            y: p.at[1],
            first,
        };
        if best.beats(seen) {
            continue;
        }
        keys[m] = seen.x * 512 + first as u32;
        m += 1;
        best = best.better(seen);
    }
    m
}

// The first m keys put in order and counted. Behind that the words of `keys` serve as the lowest level.
fn by_keys(points: &[[u32; 3]], keys: &mut [u32], ascending: &mut [u32], m: usize) -> u64
    requires { InOrder points.now × (length keys.old ≡ 512) × (m ≤ 512) × Sieved points.now (length points.now) (take m keys.old) × (length ascending.old ≡ m) }
    ensures { result ≡ front points.now }
{
    order(&mut keys[..m], ascending);
    keys.fill(2097152);
    let mut high = [2097152u32; 8];
    let mut middle = [2097152u32; 64];
    let extra = [
        2097152u32, 2097152, 2097152, 2097152, 2097152, 2097152, 2097152, 2097152, 0, 0, 0, 0, 0,
        0, 0,
    ];
    count(points, ascending, &mut high, &mut middle, keys, &extra)
}

// How many of the points are on the front.
pub fn front(points: &[[u32; 3]]) -> u64
    requires { InOrder points.now }
    ensures { result ≡ front points.now }
{
    let mut keys = [0u32; 512];
    let mut ascending = [0u32; 512];
    let m = sieve(points, &mut keys);
    by_keys(points, &mut keys, &mut ascending[..m], m)
}
