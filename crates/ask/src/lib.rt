// The calls that only read an archive: least, joint, gain, share, audit; and the counts of its records behind them.
#![tactic(auto)]

mod counts;
mod questions;

pub use counts::{count_joints, count_joints_in};
pub use questions::{audit, audited, gain, joint, least, share};
