// The reply to a guest's DHCP message in its datagram, in its frame, each written where it goes. No public function relies on
// checks by its caller.
#![tactic(auto)]

mod frame;

pub use frame::{FRAME, put_dhcp_reply};
