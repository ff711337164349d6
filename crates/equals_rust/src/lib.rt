// The published Rust and what is proved here are equal, where the Rust neither panics nor cuts a length. This
// crate has no code: its theorems are in proofs/.
#![tactic(auto)]
