// The area that points cover, seen along z: it grows by what each point gains over those before it. Those that no other covers stand in
// a line of entries, as stairs: x rises and y falls.
#![tactic(auto)]

ghost use Rattle.std.specs.Prelude.{◌≡◌, List, ◌∷◌, ◌++◌, ℕ, ◌+◌, ◌≤◌, ◌<◌, length, take, drop};
ghost use Rattle.area.specs.Area.{Lined, Falling, Topped, Crossing, Crossed, Growing, Grew};

use hypervolume::Point;
use line::{x_of, y_of};

// The least y of these entries, or ry where that is lower or there is none.
fn top(line: &[u64], ry: u64) -> u64
    requires { Falling line.now }
    ensures { Topped ry line.now result }
{
    match line.last() {
        Some(&entry) => y_of(entry).min(ry),
        None => ry,
    }
}

// The area that a point gains, and where the entries end that it covers.
#[derive(Clone, Copy)]
struct Gained {
    gain: u64,
    end: usize,
}

// Passes along the line from the point's place on, until an entry lies lower than the point. Between neighbouring x's the columns
// of cells are alike.
fn cross(line: &[u64], at: usize, top: u64, x: u64, y: u64, rx: u64, ry: u64) -> Gained
    requires { Crossing line.now at top x y rx ry }
    ensures { Crossed line.now at x y rx ry result.gain result.end }
{
    let mut column = top;
    let mut from = x.min(rx);
    let mut gain: u64 = 0;
    for k in at..line.len() {
        let entry = line[k];
        let next = x_of(entry).min(rx);
        gain += (next - from) * (column - y);
        if y_of(entry) < y {
            return Gained { gain, end: k };
        }
        column = y_of(entry).min(ry);
        from = next;
    }
    Gained {
        gain: gain + (rx - from) * (column - y),
        end: line.len(),
    }
}

// Puts the entry in place of those from `at` up to `end`, among the first m, and answers how many there are then.
fn replace(line: &mut [u64], m: usize, at: usize, end: usize, entry: u64) -> usize
    requires { (at ≤ end) × (end ≤ m) × (m < length line.old) }
    ensures { (result ≤ m + 1) × (take result line.new ≡ take at line.old ++ (entry ∷ drop end (take m line.old))) }
{
    if at == end {
        line::place(line, m, at, entry);
        return m + 1;
    }
    line[at] = entry;
    line::close(line, at + 1, end, m)
}

// How many entries the line has then, and what the point gained.
#[derive(Clone, Copy)]
pub struct Grown {
    pub held: usize,
    pub gain: u64,
}

// One more point, entered in the line of m entries. One that is covered gains nothing and is left out.
pub fn grow(line: &mut [u64], m: usize, p: Point, rx: u64, ry: u64) -> Grown
    requires { Growing line.old m p.at rx ry }
    ensures { (passed : List (List ℕ)) → Lined ry passed (take m line.old) → Grew m p.at rx ry passed line.new result.held result.gain }
{
    let x = p.at[0] as u64;
    let y = p.at[1] as u64;
    let at = line::rank(&line[..m], x);
    let top = top(&line[..at], ry);
    if top <= y {
        return Grown { held: m, gain: 0 };
    }
    let gained = cross(&line[..m], at, top, x, y, rx, ry);
    let end = gained.end;
    let held = replace(line, m, at, end, line::entry(x, y, 0));
    Grown {
        held,
        gain: gained.gain,
    }
}
