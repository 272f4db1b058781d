// The archive's words: records read and written, and rows 1 to 3 of the table of refusals.
#![tactic(auto)]

mod check;
mod header;
mod rows;

pub use check::{
    ascends, box_of, coordinates_allowed, each_within, mark, number_allowed, refusal,
    shape_allowed, within,
};
pub use header::put_header;
pub use rows::{Record, Row, Shape, find, record_at, reference_of, search, shape_of};
