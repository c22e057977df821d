// What an include line and an expanded text are, to hold against document 02, Q-10: theorems, see specs/ and proofs/. This crate has no function.
#![tactic(auto)]
