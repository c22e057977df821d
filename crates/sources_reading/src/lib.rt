// The reading of lent texts is that of the expanded text: a theorem, see specs/ and proofs/. This crate has no function.
#![tactic(auto)]
