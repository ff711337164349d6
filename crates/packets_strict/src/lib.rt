// Packets, tested strictly: whether bytes are an ARP packet or an IPv4 packet of document 01's grammar,
// and whether an IPv4 packet carries ICMP, UDP or TCP as the grammar has it. No public function relies on
// checks by its caller.
#![tactic(auto)]

mod arp;
mod ipv4;
mod payloads;

pub use arp::is_arp;
pub use ipv4::is_ipv4;
pub use payloads::{carries_dhcp, is_icmp, is_tcp, is_udp};
