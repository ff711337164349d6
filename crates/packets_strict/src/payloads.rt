// What an IPv4 packet carries: ICMP (RFC 792), UDP (RFC 768) and TCP (RFC 9293). The sums of UDP and TCP run
// over fields of the IPv4 header too, so of those two it is told only behind a right one.
ghost use Rattle.std.specs.Prelude.{◌≡◌, ◌++◌};
ghost use Rattle.base.specs.Tells.{Tells};
ghost use Rattle.grammar.specs.Grammar.{IPv4, ICMP, UDP, TCP, CarriesDHCP, payload, pseudo_header_lem};
ghost use Rattle.packets_strict.specs.helpers.Carried.{PayloadOf};
ghost use Rattle.sums.specs.Rfc1071.{SumsRight};

use sums::sum;
use wire::bytes::{byte_at, bytes_at, u16be};
use wire::{icmp, ipv4, tcp, udp};

pub fn is_icmp(packet: &[u8]) -> bool
    ensures { Tells result (ICMP packet.now) }
{
    let Some(message) = payload_of(packet, ipv4::ICMP) else {
        return false;
    };
    if message.len() < icmp::HEADER {
        return false;
    }
    sum(0, message) == ipv4::SUMS_RIGHT
}

pub fn is_udp(packet: &[u8]) -> bool
    ensures { IPv4 packet.now → Tells result (UDP packet.now) }
{
    let Some(datagram) = payload_of(packet, ipv4::UDP) else {
        return false;
    };
    if datagram.len() < udp::HEADER {
        return false;
    }
    if usize::from(u16be(datagram, udp::LENGTH)) != datagram.len() {
        return false;
    }
    // A checksum of 0 says that there is none.
    u16be(datagram, udp::CHECKSUM) == 0 || sums_with_pseudo_header(packet, datagram)
}

pub fn is_tcp(packet: &[u8]) -> bool
    ensures { IPv4 packet.now → Tells result (TCP packet.now) }
{
    let Some(segment) = payload_of(packet, ipv4::TCP) else {
        return false;
    };
    if segment.len() < tcp::HEADER {
        return false;
    }
    let offset = tcp::header_length(segment);
    if offset < tcp::HEADER {
        return false;
    }
    if segment.len() < offset {
        return false;
    }
    sums_with_pseudo_header(packet, segment)
}

// The payload of a packet with this protocol and a whole header.
fn payload_of(packet: &[u8], protocol: u8) -> Option<&[u8]>
    ensures { PayloadOf packet.now protocol result }
{
    if byte_at(packet, ipv4::PROTOCOL) != protocol {
        return None;
    }
    packet.get(ipv4::header_length(packet, 0)..)
}

// Whether the payload of `packet` sums right behind its pseudo-header. A longer one than 16 bits can say is
// not behind a right header.
fn sums_with_pseudo_header(packet: &[u8], segment: &[u8]) -> bool
    requires { segment.now ≡ payload packet.now }
    ensures { IPv4 packet.now
        → Tells result (SumsRight (pseudo_header_lem packet.now ++ payload packet.now)) }
{
    let Ok(length) = u16::try_from(segment.len()) else {
        return false;
    };
    let pseudo = udp::pseudo_header(
        bytes_at(packet, ipv4::SOURCE),
        bytes_at(packet, ipv4::TARGET),
        byte_at(packet, ipv4::PROTOCOL),
        length,
    );
    sum(sum(0, &pseudo), segment) == ipv4::SUMS_RIGHT
}

// Ports 67 and 68, in either order.
pub fn carries_dhcp(packet: &[u8]) -> bool
    ensures { Tells result (CarriesDHCP packet.now) }
{
    let header = ipv4::header_length(packet, 0);
    let ports = (
        u16be(packet, header + udp::SOURCE),
        u16be(packet, header + udp::TARGET),
    );
    matches!(
        ports,
        (udp::DHCP_SERVER, udp::DHCP_CLIENT) | (udp::DHCP_CLIENT, udp::DHCP_SERVER)
    )
}
