// Figures over repeated runs: of archives one behind the other in a slice, the sum of their kept totals, the least, the greatest, the
// median and its share, and whether every audit says yes.
#![tactic(auto)]

mod answer;
mod numbers;
mod runs;

pub use answer::{Figures, FiguresAnswer};
pub use runs::figures;
