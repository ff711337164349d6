// Document 01's tests on a guest frame, in its order. Of the record they see the network alone, and nothing
// of the room.
ghost use Rattle.std.specs.Prelude.{◌≡◌};
ghost use Rattle.rules.specs.Rules.{decision, arp_decision, ip_decision, icmp_decision, udp_decision, dhcp_decision};

use dhcp_message::reply_type;
use options::message_type;
use record::{Network, Refusal};
use std::cmp::min;
use wire::bytes::{byte_at, bytes_at, u16be, u32be};
use wire::ethernet::eth_type;
use wire::ipv4::{ip_dst, ip_hlen, ip_proto};
use wire::{arp, dhcp, ethernet, icmp, ipv4, udp};

// What is to be done with a frame. A start is counted from the frame's first byte.
#[derive(Clone, Copy, PartialEq, Eq)]
pub enum Decision {
    Drop,
    // A DHCP message gets no reply, and its xid is noted.
    DropNoting(u32),
    ArpReply,
    // The echo request runs from `start` to the end of the frame.
    EchoReply { start: usize },
    DhcpReply { xid: u32, kind: u8 },
    Dns { start: usize, len: usize },
    Relay { start: usize, len: usize },
    Tcp(usize),
}

// What has one length, and places in the frame.
const IP_FRAME: usize = ethernet::HEADER + ipv4::HEADER;

const ARP_FRAME: usize = ethernet::HEADER + arp::PACKET;

const ARP_OPERATION: usize = ethernet::HEADER + arp::OPERATION;

const ARP_TARGET: usize = ethernet::HEADER + arp::TARGET_IP;

// A refusal is TooLong with the payload's length, or CutType with a place that is counted from the DHCP
// data's first byte.
#[tactic(auto, using(std::proofs::lemmas::Bool::Decides::nat_tests), unfolding(crate::specs::Rules::decision))]
pub fn decide(net: Network, frame: &[u8]) -> Result<Decision, Refusal>
    ensures { result ≡ decision net frame.now }
{
    if frame.len() < ethernet::HEADER {
        return Ok(Decision::Drop);
    }
    match eth_type(frame) {
        ethernet::ARP => Ok(decide_arp(net, frame)),
        ethernet::IPV4 => decide_ip(net, frame),
        _ => Ok(Decision::Drop),
    }
}

#[tactic(auto, using(std::proofs::lemmas::Bool::Decides::nat_tests), unfolding(crate::specs::Rules::arp_decision))]
fn decide_arp(net: Network, frame: &[u8]) -> Decision
    ensures { result ≡ arp_decision net frame.now }
{
    if frame.len() < ARP_FRAME {
        return Decision::Drop;
    }
    if u16be(frame, ARP_OPERATION) != arp::REQUEST {
        return Decision::Drop;
    }
    if bytes_at(frame, ARP_TARGET) != net.gateway {
        return Decision::Drop;
    }
    Decision::ArpReply
}

#[tactic(auto, using(std::proofs::lemmas::Bool::Decides::nat_tests), unfolding(crate::specs::Rules::ip_decision))]
fn decide_ip(net: Network, frame: &[u8]) -> Result<Decision, Refusal>
    ensures { result ≡ ip_decision net frame.now }
{
    if frame.len() < IP_FRAME {
        return Ok(Decision::Drop);
    }
    match ip_proto(frame) {
        ipv4::ICMP => decide_icmp(net, frame),
        ipv4::TCP => Ok(Decision::Tcp(frame.len())),
        ipv4::UDP => decide_udp(net, frame),
        _ => Ok(Decision::Drop),
    }
}

// The payload runs to the end of the frame, whatever total length the packet states.
#[tactic(auto, using(std::proofs::lemmas::Bool::Decides::nat_tests), unfolding(crate::specs::Rules::icmp_decision))]
fn decide_icmp(net: Network, frame: &[u8]) -> Result<Decision, Refusal>
    ensures { result ≡ icmp_decision net frame.now }
{
    if ip_dst(frame) != net.gateway {
        return Ok(Decision::Drop);
    }
    let start = ethernet::HEADER + ip_hlen(frame);
    let Some(payload) = frame.get(start..) else {
        return Ok(Decision::Drop);
    };
    if payload.len() < icmp::HEADER {
        return Ok(Decision::Drop);
    }
    if byte_at(payload, 0) != icmp::ECHO_REQUEST {
        return Ok(Decision::Drop);
    }
    if ipv4::PAYLOAD_LIMIT < payload.len() {
        return Err(Refusal::TooLong(payload.len()));
    }
    Ok(Decision::EchoReply { start })
}

// Here too the payload runs to the end of the frame.
#[tactic(auto, using(std::proofs::lemmas::Bool::Decides::nat_tests), unfolding(crate::specs::Rules::udp_decision))]
fn decide_udp(net: Network, frame: &[u8]) -> Result<Decision, Refusal>
    ensures { result ≡ udp_decision net frame.now }
{
    let header = ethernet::HEADER + ip_hlen(frame);
    let Some(payload) = frame.get(header..) else {
        return Ok(Decision::Drop);
    };
    if payload.len() < udp::HEADER {
        return Ok(Decision::Drop);
    }
    let stated = usize::from(u16be(payload, udp::LENGTH));
    if stated < udp::HEADER {
        return Ok(Decision::Drop);
    }
    let data = &payload[udp::HEADER..min(payload.len(), stated)];
    let start = header + udp::HEADER;
    let len = data.len();
    let destination = u16be(payload, udp::TARGET);
    // Whatever address it is sent to.
    if u16be(payload, udp::SOURCE) == udp::DHCP_CLIENT && destination == udp::DHCP_SERVER {
        return decide_dhcp(data);
    }
    if destination == udp::DNS && ip_dst(frame) == net.gateway {
        return Ok(Decision::Dns { start, len });
    }
    Ok(Decision::Relay { start, len })
}

// DHCP data, whoever it is addressed to.
#[tactic(auto, using(std::proofs::lemmas::Bool::Decides::nat_tests), unfolding(crate::specs::Rules::dhcp_decision))]
fn decide_dhcp(message: &[u8]) -> Result<Decision, Refusal>
    ensures { result ≡ dhcp_decision message.now }
{
    if message.len() < dhcp::FIXED {
        return Ok(Decision::Drop);
    }
    if byte_at(message, 0) != dhcp::BOOT_REQUEST {
        return Ok(Decision::Drop);
    }
    let xid = u32be(message, dhcp::XID);
    if u32be(message, dhcp::COOKIE) != dhcp::MAGIC_COOKIE {
        return Ok(Decision::DropNoting(xid));
    }
    let received = message_type(message).map_err(|cut| Refusal::CutType(cut.0))?;
    // By a closure: tried with the function's name alone, and the check finds no contract for that in another
    // crate.
    let Some(kind) = received.and_then(|kind| reply_type(kind)) else {
        return Ok(Decision::DropNoting(xid));
    };
    Ok(Decision::DhcpReply { xid, kind })
}
