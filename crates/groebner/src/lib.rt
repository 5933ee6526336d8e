// Remainders, Groebner bases and the change of order: definitions (specs/) and theorems (proofs/), no code.
#![tactic(auto)]
