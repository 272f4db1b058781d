// Start and insert: the calls by which an archive comes to hold trials.
#![tactic(auto)]

mod inserting;
mod starting;

pub use inserting::{enter, insert};
pub use starting::{start, start_row};
