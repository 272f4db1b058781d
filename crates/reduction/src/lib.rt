// Reduce: drops of the least contributor, on the archive's columns.
#![tactic(auto)]

mod columns;
mod dropping;
mod reducing;

pub use reducing::reduce;
