// No channel depends on its neighbours: a theorem about the meaning, see specs/ and proofs/. This crate has no function.
#![tactic(auto)]
