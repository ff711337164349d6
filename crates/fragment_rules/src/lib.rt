// What is to be done with a frame, by looking alone: document 02's rules of a store, request 4/13. No
// function relies on checks by its caller: a store of any size, a frame of any length and any state get
// a ruling. `fragments` carries it out.
#![tactic(auto)]

mod answer;
mod ruling;

pub use answer::{Answer, Refusal, State};
pub use fragment_packets::Datagram;
pub use ruling::{Ruling, is_of_size, rule};
