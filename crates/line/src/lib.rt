// The line: the points passed, in ascending x. Each is one word, an entry, that holds x, y, the point's index in the
// list and a flag: 21 bits for a coordinate, 10 for the index, 1 for the flag. (One word, and no struct: so say the contracts of
// `entry`, `rank` and `enter`, and so the lines that callers lend are small.) The flag is set where an entry before it covers
// it; an entry without it has the least y so far. One that two others cover is left out: by law 6 it no longer counts.
#![tactic(auto)]

ghost use Rattle.std.specs.Prelude.{◌≡◌, ℕ, ◌+◌, ◌-◌, ◌≤◌, ◌<◌, leb, ◌∷◌, length, take, drop};
ghost use Rattle.slices.specs.Choices.{pick};
ghost use Rattle.slices.specs.Put.{put};
ghost use Rattle.hypervolume.specs.Cells.{holds};
ghost use Rattle.line.specs.Line.{entry_of, flagged, x_of, y_of, index_of, flag_of, Rising, Between, Ranked};
ghost use Rattle.line.specs.Column.{ColumnState};
ghost use Rattle.line.specs.Entries.{ThinningLine, Walked, Closed, Entering, Entered};

use crate::column::Column;

pub mod column;

pub fn entry(x: u64, y: u64, index: usize) -> u64
    requires { (x ≤ 1048576) × (y ≤ 1048576) × (index < 512) }
    ensures { result ≡ entry_of x y index }
{
    ((x * 2097152 + y) * 1024 + index as u64) * 2
}

pub fn x_of(entry: u64) -> u64
    ensures { result ≡ x_of entry }
{
    entry / 4294967296
}

pub fn y_of(entry: u64) -> u64
    ensures { result ≡ y_of entry }
{
    entry / 2048 % 2097152
}

pub fn index_of(entry: u64) -> usize
    ensures { result ≡ index_of entry }
{
    (entry / 2 % 1024) as usize
}

pub fn flag_of(entry: u64) -> u64
    ensures { result ≡ flag_of entry }
{
    entry % 2
}

// The entry, with its flag set.
pub fn set_flag(entry: u64) -> u64
    ensures { result ≡ flagged entry }
{
    entry / 2 * 2 + 1
}

// The entry, with its flag set where the test holds.
#[tactic(auto, unfolding(slices::specs::Choices::pick))]
fn flag_where(test: bool, entry: u64) -> u64
    ensures { result ≡ pick test (flagged entry) entry }
{
    if test { set_flag(entry) } else { entry }
}

// 1 where the entry is at most x, else 0. By arithmetic, since no branch could tell beforehand.
fn reaches(entry: u64, x: u64) -> usize
    requires { x ≤ 1048576 }
    ensures { result ≡ holds (leb (x_of entry) x) }
{
    ((x + 4294967296 - entry / 4294967296) / 4294967296) as usize
}

// What is left of a search: the place lies among `size` entries from `low` on, or right behind them.
#[derive(Clone, Copy)]
struct Range {
    low: usize,
    size: usize,
}

// Searches the place of a point at x until at most two entries are left. Three are asked at a time, so that no answer waits
// for another, as each does in a slice's `partition_point`; and as much is left whatever they say.
fn narrow(line: &[u64], x: u64) -> Range
    requires { Rising 0 line.now × (x ≤ 1048576) }
    ensures { Between line.now x result.low result.size × (result.size ≤ 2) }
{
    let mut low = 0;
    let mut size = line.len();
    while 2 < size {
        let part = (size + 1) / 4;
        let first = reaches(line[low + part - 1], x);
        let second = reaches(line[low + 2 * part - 1], x);
        let third = reaches(line[low + 3 * part - 1], x);
        low += part * (first + second + third);
        size -= 3 * part;
    }
    Range { low, size }
}

// Where a point at x belongs: behind the entries that are at most x.
pub fn rank(line: &[u64], x: u64) -> usize
    requires { Rising 0 line.now × (x ≤ 1048576) }
    ensures { Ranked line.now x result }
{
    let range = narrow(line, x);
    let low = range.low;
    if range.size == 2 {
        return low + reaches(line[low], x) + reaches(line[low + 1], x);
    }
    if range.size == 1 {
        return low + reaches(line[low], x);
    }
    low
}

// What is free between the entries that stay and those that the walk did not come to.
#[derive(Clone, Copy)]
struct Gap {
    to: usize,
    from: usize,
}

// Walks along the entries from `at` on, for the next point, which belongs there. Those that it covers are flagged, and left
// out where they had the flag. Past an entry that is below the point and has no flag, none without a flag is covered. (A `while`:
// as a `for` the sweep takes 2 % longer.)
fn thin(line: &mut [u64], m: usize, at: usize, next: u64) -> Gap
    requires { ThinningLine line.old m at next }
    ensures { Walked line.old m at next line.new result.to result.from }
{
    let y = y_of(next);
    let mut to = at;
    let mut from = at;
    while from < m {
        let entry = line[from];
        if y_of(entry) < y {
            if flag_of(entry) == 0 {
                return Gap { to, from };
            }
            line[to] = entry;
            to += 1;
            from += 1;
        } else if flag_of(entry) == 0 {
            line[to] = set_flag(entry);
            to += 1;
            from += 1;
        } else {
            from += 1;
        }
    }
    Gap { to, from }
}

// Moves the entries from `from` up to m down to `to`, and answers where they end.
pub fn close(line: &mut [u64], to: usize, from: usize, m: usize) -> usize
    requires { (to ≤ from) × (from ≤ m) × (m ≤ length line.old) }
    ensures { Closed line.old to from m line.new result }
{
    if to == from {
        return m;
    }
    let n = m - from;
    slices::move_down(line, to, n, from - to);
    to + n
}

// Puts the entry in at `at`, among the first m.
pub fn place(line: &mut [u64], m: usize, at: usize, entry: u64)
    requires { (at ≤ m) × (m < length line.old) }
    ensures { line.new ≡ put line.old at (entry ∷ take (m - at) (drop at line.old)) }
{
    slices::move_up(line, at, m - at, 1);
    line[at] = entry;
}

// The line of m entries with the next point, which belongs at `at`, where the column is that of the entries before: answers how
// many entries it has then. A point that two of them cover is left out. Where entries leave, the new one takes their room.
pub fn enter(line: &mut [u64], m: usize, at: usize, column: Column, next: u64) -> usize
    requires { Entering line.old m at next }
    ensures { (ry : ℕ) → ColumnState ry (take at line.old) column → Entered ry line.old m next line.new result }
{
    let y = y_of(next);
    if column.second <= y {
        return m;
    }
    let gap = thin(line, m, at, next);
    let to = gap.to;
    let from = gap.from;
    let entry = flag_where(column.least <= y, next);
    if to == from {
        place(line, m, at, entry);
        return m + 1;
    }
    place(line, to, at, entry);
    close(line, to + 1, from, m)
}
