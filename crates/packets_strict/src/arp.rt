// ARP: RFC 826.
ghost use Rattle.base.specs.Tells.{Tells};
ghost use Rattle.grammar.specs.Grammar.{ARP};

use wire::bytes::{byte_at, u16be};
use wire::{arp, ethernet};

pub fn is_arp(packet: &[u8]) -> bool
    ensures { Tells result (ARP packet.now) }
{
    if packet.len() != arp::PACKET {
        return false;
    }
    if u16be(packet, arp::HARDWARE) != arp::ETHERNET {
        return false;
    }
    if u16be(packet, arp::PROTOCOL) != ethernet::IPV4 {
        return false;
    }
    if byte_at(packet, arp::HARDWARE_LENGTH) != arp::MAC_LENGTH {
        return false;
    }
    if byte_at(packet, arp::PROTOCOL_LENGTH) != arp::ADDRESS_LENGTH {
        return false;
    }
    matches!(u16be(packet, arp::OPERATION), arp::REQUEST | arp::REPLY)
}
