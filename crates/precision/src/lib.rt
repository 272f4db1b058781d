// How close the volume in doubles is to the count of cells: definitions and proofs, no code.
#![tactic(auto)]
