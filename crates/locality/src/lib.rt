// The token reader is local: a theorem about tokens, see specs/ and proofs/. This crate has no function.
#![tactic(auto)]
