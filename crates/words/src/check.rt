// Rows 1 to 3 of the table of refusals: what words must be to be read as an archive.
ghost use Rattle.std.specs.Prelude.{◌≡◌, true, false, ℕ, ◌+◌, ◌-◌, ◌*◌, ◌≤◌, length, get_or};
ghost use Rattle.std.proofs.Math.Seq.{slice};
ghost use Rattle.slices.specs.Choices.{both};
ghost use Rattle.refusals.specs.Table.{outcome};
ghost use Rattle.hypervolume.specs.Cells.{box};
ghost use Rattle.words.specs.Archive.{reference, ascends};
ghost use Rattle.words.specs.Layout.{read_shape, read};
ghost use Rattle.words.specs.Format.{within, each, shape_allowed, number_allowed, coordinates_allowed, header_allowed, row_allowed, sound_rows, zeros, records_allowed, archive_rows};
ghost use Rattle.words.specs.Places.{as_row, as_shape, follows, stands, AtPlace, Headed};
ghost use Rattle.words.specs.Table.{marked, Marking};

use crate::rows::{Row, Shape, reference_point, row_at, search, shape_of};
use hypervolume::Point;
use refusals::Refusal;
use slices::both;

#[tactic(auto, unfolding(crate::specs::Format::within))]
pub fn within(low: u64, high: u64, n: u64) -> bool
    ensures { result ≡ within low high n }
{
    both(low <= n, n <= high)
}

// Whether each of the numbers is from low to high. No early end: most are.
pub fn each_within(low: u64, high: u64, numbers: &[u64]) -> bool
    ensures { result ≡ each (within low high) numbers.now }
{
    let mut all = true;
    for n in numbers {
        all = both(all, within(low, high, *n));
    }
    all
}

// Row 4, and part of row 2.
#[tactic(auto, unfolding(crate::specs::Format::shape_allowed))]
pub fn shape_allowed(s: Shape) -> bool
    ensures { result ≡ shape_allowed (as_shape s) }
{
    both(
        within(1, 512, s.capacity),
        each_within(1, 1048576, &[s.rx, s.ry, s.rz]),
    )
}

// Row 5, and part of row 3.
#[tactic(auto, unfolding(crate::specs::Format::number_allowed))]
pub fn number_allowed(n: u64) -> bool
    ensures { result ≡ number_allowed n }
{
    within(1, 9999999, n)
}

// Row 6, and part of row 3.
#[tactic(auto, unfolding(crate::specs::Format::coordinates_allowed), using(crate::proofs::Passed::each_three))]
pub fn coordinates_allowed(row: Row) -> bool
    ensures { result ≡ coordinates_allowed (as_row row).trial }
{
    each_within(0, 1048576, &[row.x, row.y, row.z])
}

// The box, at most 2^60 cells: the origin dominates them all.
pub fn box_of(reference: Point) -> u64
    requires { (axis : ℕ) → get_or reference.at axis 0 ≤ 1048576 }
    ensures { result ≡ box reference.at }
{
    Point::new(0, 0, 0).edges(reference)
}

// Row 2. The ranges come first, so that the box fits a word.
fn header_allowed(w: &[u64]) -> bool
    requires { 8 ≤ length w.now }
    ensures { result ≡ header_allowed w.now }
{
    let s = shape_of(w);
    if !shape_allowed(s) {
        return false;
    }
    let cells = box_of(reference_point(s));
    both(
        w[6] <= w[0],
        both(w[7] == 0, both(w[0] <= w[1], w[5] <= cells)),
    )
}

// Row 3, one record.
fn row_allowed(s: Shape, cells: u64, row: Row) -> bool
    requires { cells ≡ box (reference (as_shape s)) }
    ensures { result ≡ row_allowed (as_shape s) (as_row row) }
{
    both(
        number_allowed(row.number),
        both(coordinates_allowed(row), row.kept <= cells),
    )
}

// Whether a is less than b in the first number in which they differ. (So does `<` of arrays, but a pass over the records took a
// sixth more time with it.)
pub fn ascends(a: [u64; 4], b: [u64; 4]) -> bool
    ensures { result ≡ ascends a b }
{
    for i in 0..4usize {
        if a[i] < b[i] {
            return true;
        }
        if b[i] < a[i] {
            return false;
        }
    }
    false
}

// Whether the record at place i stands in order behind the one before it.
fn follows(w: &[u64], i: usize) -> bool
    requires { 8 + 5 * (i + 1) ≤ length w.now }
    ensures { result ≡ follows w.now i }
{
    if i == 0 {
        return true;
    }
    ascends(row_at(w, i - 1).key(), row_at(w, i).key())
}

// Notes the number in the table, and says whether its bit was set before.
pub fn mark(table: &mut [u64], number: u64) -> bool
    requires { length table.old ≡ 1024 }
    ensures value { result ≡ marked table.old number }
    ensures marking { Marking table.old table.new number }
{
    let at = (number % 65536 / 64) as usize;
    let bits = table[at];
    table[at] = bits | (1 << (number % 64));
    (bits >> (number % 64)) % 2 == 1
}

// Row 3 at place i. Only where the number's bit was set are the records before read for it.
fn stands(w: &[u64], cells: u64, i: usize, met: bool) -> bool
    requires { AtPlace w.now cells i met }
    ensures { result ≡ stands w.now i }
{
    let row = row_at(w, i);
    if !both(row_allowed(shape_of(w), cells, row), follows(w, i)) {
        return false;
    }
    if !met {
        return true;
    }
    search(w, i, row.number).is_none()
}

// Row 3, the records: each allowed, in order, no number twice. One pass.
fn rows_allowed(w: &[u64]) -> bool
    requires { Headed w.now }
    ensures { result ≡ sound_rows (read_shape w.now) (read w.now).rows }
{
    let cells = box_of(reference_point(shape_of(w)));
    let n = w[0] as usize;
    let mut table = [0u64; 1024];
    for i in 0..n {
        let met = mark(&mut table, w[8 + 5 * i]);
        if !stands(w, cells, i, met) {
            return false;
        }
    }
    true
}

// Whether these words are zero. No early end: most are.
fn zeros(words: &[u64]) -> bool
    ensures { result ≡ zeros words.now }
{
    let mut any: u64 = 0;
    for word in words {
        any = any | *word;
    }
    any == 0
}

// Row 3.
#[tactic(auto, using(crate::proofs::Passed::header_facts))]
fn records_allowed(w: &[u64]) -> bool
    requires { Headed w.now }
    ensures { result ≡ records_allowed w.now }
{
    if !rows_allowed(w) {
        return false;
    }
    zeros(&w[8 + 5 * w[0] as usize..8 + 5 * w[1] as usize])
}

// Rows 1 to 3 for any words: the row that turns them down.
pub fn refusal(w: &[u64]) -> Result<(), Refusal>
    ensures { outcome result ≡ archive_rows w.now 0 }
{
    if w.len() < 8 {
        return Err(Refusal::SliceShort);
    }
    if !header_allowed(w) {
        return Err(Refusal::BadHeader);
    }
    if w.len() < 8 + 5 * w[1] as usize {
        return Err(Refusal::SliceShort);
    }
    if !records_allowed(w) {
        return Err(Refusal::BadRecords);
    }
    Ok(())
}
