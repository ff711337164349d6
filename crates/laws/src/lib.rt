// What holds of the parts together. This crate has no code: its theorems are in proofs/.
#![tactic(auto)]
