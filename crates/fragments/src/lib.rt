// Reassembly of IPv4 fragments: document 02, request 4/13. The host lends a store for each guest, the
// payload's bytes and a bitmap of the blocks that have come, and hands the small rest in and out by
// value. No function relies on checks by its caller: a store of any size, a frame of any length and any
// state get an answer. A refusal leaves bytes, bits and state as they were. A new store is emptied by
// `release`, whatever it holds.
#![tactic(auto)]

mod answer;
mod handing;
mod store;

pub use answer::{Site, Taken};
pub use fragment_packets::Datagram;
pub use fragment_rules::{Answer, Refusal, State};
pub use handing::{payload, site_of, stored_length};
pub use store::{release, take};
