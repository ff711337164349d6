// What stands where on the wire, a module for each protocol: the offsets of its fields, its lengths and numbers, and
// readers for buffers of any length. Nothing here knows a record or a rule, and nothing relies on checks by its caller.
#![tactic(auto)]

pub mod arp;
pub mod bytes;
pub mod dhcp;
pub mod ethernet;
pub mod icmp;
pub mod ipv4;
pub mod tcp;
pub mod udp;
