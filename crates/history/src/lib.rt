// The trial book and the theorem on whole histories of calls: definitions and proofs, no code.
#![tactic(auto)]
