// What holds of an archive with its axes in another order: definitions and theorems, no code.
#![tactic(auto)]
