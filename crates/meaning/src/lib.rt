// The meaning of OIL 2.5 is a specification: see specs/ and proofs/. This crate has no function.
#![tactic(auto)]
