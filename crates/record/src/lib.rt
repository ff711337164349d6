// The record that the host keeps for each guest, its network, and what a call answers. A record is changed by
// `spend` and `note`, here alone; `making` makes one. No function relies on checks by its caller.
#![tactic(auto)]

mod answer;
mod guest;
mod network;
mod room;

pub use answer::{Answer, Refusal, Verdict};
pub use guest::Guest;
pub use network::{GATEWAY_MAC, Network};
pub use room::{within_limit, within_room};
