// Lists and arrays: definitions (specs/) and laws (proofs/), no code.
#![tactic(auto)]
