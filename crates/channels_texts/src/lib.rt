// No channel depends on its neighbours, over lent texts: theorems, see specs/ and proofs/. This crate has no function.
#![tactic(auto)]
