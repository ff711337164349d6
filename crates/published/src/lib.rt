// The published Rust as definitions, file by file and line by line. It has no code, and nothing here knows
// of ours: it is built on no other crate.
#![tactic(auto)]
