// The strict reader: it takes a frame exactly when document 01's grammar derives it, and reports the
// derivation's parts. It relies on no check by its caller; the gateway does not use it.
#![tactic(auto)]

ghost use Rattle.std.specs.Prelude.{◌≡◌};
ghost use Rattle.grammar.specs.Grammar.{body, protocol};
ghost use Rattle.grammar.specs.Report.{Reads};
ghost use Rattle.reader.specs.Reported.{report_of};
ghost use Rattle.reader.specs.helpers.Opened.{Framed, Opened};

mod parts;

use dhcp_strict::read_message;
use packets_strict::{carries_dhcp, is_arp, is_icmp, is_ipv4, is_tcp, is_udp};
pub use parts::{Layer, Reading};
use wire::{dhcp, ethernet, icmp, ipv4, tcp, udp};

// The parts of `frame`; None: it is outside the grammar, verdict 8.
pub fn read(frame: &[u8]) -> Option<Reading>
    ensures { Reads frame.now (report_of result) }
{
    let packet = frame.get(ethernet::HEADER..)?;
    match ethernet::eth_type(frame) {
        ethernet::ARP if is_arp(packet) => Some(Reading::Arp {
            ethernet: Layer::of(0, ethernet::HEADER, frame.len()),
        }),
        ethernet::IPV4 if is_ipv4(packet) => read_payload(frame),
        _ => None,
    }
}

// The same of a frame whose IPv4 header is right.
fn read_payload(frame: &[u8]) -> Option<Reading>
    requires { Framed frame.now }
    ensures { Reads frame.now (report_of result) }
{
    let stop = frame.len();
    let packet = &frame[ethernet::HEADER..];
    let ethernet = Layer::of(0, ethernet::HEADER, stop);
    let ip = Layer::of(
        ethernet::HEADER,
        ethernet::HEADER + ipv4::ip_hlen(frame),
        stop,
    );
    match ipv4::ip_proto(frame) {
        ipv4::ICMP => is_icmp(packet).then_some(Reading::Icmp {
            ethernet,
            ip,
            message: Layer::of(ip.payload, ip.payload + icmp::HEADER, stop),
        }),
        ipv4::TCP => is_tcp(packet).then_some(Reading::Tcp {
            ethernet,
            ip,
            segment: Layer::of(
                ip.payload,
                ip.payload + tcp::header_length(&frame[ip.payload..]),
                stop,
            ),
        }),
        ipv4::UDP => read_datagram(frame, ethernet, ip),
        _ => Some(Reading::OtherIpv4 { ethernet, ip }),
    }
}

// The same where the payload is UDP, behind these two layers.
fn read_datagram(frame: &[u8], ethernet: Layer, ip: Layer) -> Option<Reading>
    requires framed { Framed frame.now }
    requires is_udp { protocol (body frame.now) ≡ 17 }
    requires opened { Opened frame.now ethernet ip }
    ensures { Reads frame.now (report_of result) }
{
    let stop = frame.len();
    let packet = &frame[ethernet::HEADER..];
    if !is_udp(packet) {
        return None;
    }
    let data = ip.payload + udp::HEADER;
    let datagram = Layer::of(ip.payload, data, stop);
    if !carries_dhcp(packet) {
        return Some(Reading::Udp {
            ethernet,
            ip,
            datagram,
        });
    }
    let message_type = read_message(frame, data)?;
    Some(Reading::Dhcp {
        ethernet,
        ip,
        datagram,
        message: Layer::of(data, data + dhcp::FIXED, stop),
        message_type,
    })
}
