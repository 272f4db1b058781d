// One pass along the line, for the next point p. Between neighbouring x's the columns of cells are alike, so each such
// strip is settled by one product.
#![tactic(auto)]

ghost use Rattle.std.specs.Prelude.{[], ◌≡◌, leb, eqb};
ghost use Rattle.slices.specs.Choices.{both};
ghost use Rattle.line.specs.Line.{y_of, flag_of, Flagged};
ghost use Rattle.strips.specs.Strips.{Seen, Settling, Settled, Crossing, Crossed};

use line::column::Column;
use line::{flag_of, index_of, x_of, y_of};

// Whether no entry before this one changes the column. (By `&&` the sweep of a front takes 4 % longer.)
#[tactic(auto, unfolding(slices::specs::Choices::both))]
fn decides(entry: u64, column: Column) -> bool
    ensures { result ≡ both (eqb (flag_of entry) 0) (leb column.second (y_of entry)) }
{
    if flag_of(entry) == 0 {
        column.second <= y_of(entry)
    } else {
        false
    }
}

// The column that these entries make, looked at from the last one back: an entry without the flag has the least y so far.
pub fn look_back(line: &[u64], ry: u64) -> Column
    requires { Flagged [] line.now }
    ensures { Seen ry line.now result }
{
    let mut column = Column {
        least: ry,
        owner: 0,
        second: ry,
    };
    for k in (0..line.len()).rev() {
        let entry = line[k];
        column = column.with(y_of(entry), index_of(entry));
        if decides(entry, column) {
            return column;
        }
    }
    column
}

// Settles the columns from `from` up to `to`: answers the area that p alone dominates there, and takes from the owner's
// contribution what p and the owner alone dominate there, `height` cells deep.
fn settle(column: Column, from: u64, to: u64, py: u64, height: u64, out: &mut [u64]) -> u64
    requires { Settling column from to py height out.old }
    ensures { Settled column from to py height out.old out.new result }
{
    if to <= from {
        return 0;
    }
    let width = to - from;
    let shared = column.second.saturating_sub(py.max(column.least));
    let owner = column.owner;
    out[owner] -= height * (width * shared);
    width * column.least.saturating_sub(py)
}

// The area that p alone dominates in a layer; from each contribution in `out` goes what p and that point alone dominate.
// The pass begins at p, behind the entries before `start`, which make the column `first`. It ends early where two points
// passed dominate all that is left of p. (With the operands of `min` and `max` the other way round the sweep takes 4 % longer.)
pub fn strips(
    line: &[u64],
    start: usize,
    first: Column,
    px: u64,
    py: u64,
    rx: u64,
    ry: u64,
    height: u64,
    out: &mut [u64],
) -> u64
    requires { Crossing line.now start first px py rx ry height out.old }
    ensures { Crossed line.now px py rx ry height out.old out.new result }
{
    let mut column = first;
    let mut at = rx.min(px);
    let mut area: u64 = 0;
    for k in start..line.len() {
        if column.second <= py {
            return area;
        }
        let entry = line[k];
        let next = rx.min(x_of(entry));
        area += settle(column, at, next, py, height, out);
        at = next.max(at);
        column = column.with(y_of(entry), index_of(entry));
    }
    area + settle(column, at, rx, py, height, out)
}
