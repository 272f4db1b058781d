// Remove: a trial leaves an archive.
#![tactic(auto)]

mod removing;

pub use removing::remove;
