// A frame as reassembly sees it: unfit, a whole datagram, or a part of one. Every frame of any length is one of them.
#![tactic(auto)]

mod packet;

pub use packet::{Datagram, Fragment, Packet, read};
