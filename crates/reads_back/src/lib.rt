// Normal text reads back to the same values: a theorem about the meaning, see specs/ and proofs/. This crate has no function.
#![tactic(auto)]
