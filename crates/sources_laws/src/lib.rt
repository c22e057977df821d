// The expanded text has the tokens of the texts: a theorem, see specs/ and proofs/. This crate has no function.
#![tactic(auto)]
