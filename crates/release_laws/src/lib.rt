// Theorems on two releases compared; no code.
#![tactic(auto)]
