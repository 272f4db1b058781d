// Terms 2 and 3 after a loading, and the words behind an archive: definitions and proofs, no code.
#![tactic(auto)]
