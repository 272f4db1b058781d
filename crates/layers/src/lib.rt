// The layers of a set of points along the last axis: definitions and laws, no code.
#![tactic(auto)]
