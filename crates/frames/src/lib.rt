// The builders of IPv4 frames, into a lent buffer. No public function relies on checks by its caller.
#![tactic(auto)]

mod ethernet;
mod ipv4;

pub use ethernet::ethernet_header;
pub use ipv4::{Packet, make_ip_frame, make_ip_frame_in_place, put_headers};
