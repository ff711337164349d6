// What holds of a host's calls one after the other. This crate has no code: its theorems are in proofs/.
#![tactic(auto)]
