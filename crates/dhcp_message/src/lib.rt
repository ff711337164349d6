// The reply to a guest's DHCP message, and which type of message gets which reply. No public function relies on checks by
// its caller.
#![tactic(auto)]

mod reply;

pub use reply::{REPLY_LENGTH, build_reply, put_reply, reply_type};
