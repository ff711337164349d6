// A store as a host in C keeps it and gets reports of it: its state in six words, an answer as a number, a payload as a
// place. Every value of the words is a state, and no function relies on checks by its caller.
#![tactic(auto)]

mod placing;
mod reporting;
mod words;

pub use placing::place;
pub use reporting::report;
pub use words::state_of;
