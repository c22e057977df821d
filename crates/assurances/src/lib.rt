// Theorems about the public calls and about every accepted text, for those who judge the tool: specs/ states them, proofs/ has their proofs.
#![tactic(auto)]
