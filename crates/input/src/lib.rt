// A reader's bytes, read into a lent buffer.
#![tactic(auto)]

mod full;

pub use full::read_full;
