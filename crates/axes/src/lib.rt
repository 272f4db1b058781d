// The archive with its axes in another order, written into a second slice.
#![tactic(auto)]

mod arranging;
mod orders;
mod rearranging;

pub use rearranging::{rearrange, write};
