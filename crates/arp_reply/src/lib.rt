// The reply to an ARP request: the gateway's MAC for its address. No public function relies on checks by its
// caller.
#![tactic(auto)]

ghost use Rattle.std.specs.Prelude.{◌≡◌};
ghost use Rattle.arp_reply.specs.Reply.{reply_to};
ghost use Rattle.base.specs.Buffer.{put_if_fits};
ghost use Rattle.record.specs.Network.{gateway_mac};
ghost use Rattle.wire.specs.Rfc826.{packet};

use base::put;
use frames::ethernet_header;
use record::GATEWAY_MAC;
use wire::{arp, ethernet};

pub const FRAME: usize = ethernet::HEADER + arp::PACKET;

// To whoever has this MAC and address, at the front of `out`; where it does not fit, nothing is written.
pub fn put_arp_reply(gateway: [u8; 4], mac: [u8; 6], address: [u8; 4], out: &mut [u8])
    ensures { out.new ≡ put_if_fits 0 (reply_to gateway mac address) out.old }
{
    if out.len() < FRAME {
        return;
    }
    let outer = ethernet_header(mac, ethernet::ARP);
    let inner = reply_packet(gateway, mac, address);
    put(out, 0, &outer);
    put(out, ethernet::HEADER, &inner);
}

// A reply between Ethernet and IPv4 addresses, of 6 and 4 bytes. (Byte by byte, as `wire::udp::pseudo_header`.)
fn reply_packet(gateway: [u8; 4], mac: [u8; 6], address: [u8; 4]) -> [u8; 28]
    ensures { result ≡ packet 2 gateway_mac gateway mac address }
{
    let hardware = arp::ETHERNET.to_be_bytes();
    let protocol = ethernet::IPV4.to_be_bytes();
    let operation = arp::REPLY.to_be_bytes();
    [
        hardware[0],
        hardware[1],
        protocol[0],
        protocol[1],
        arp::MAC_LENGTH,
        arp::ADDRESS_LENGTH,
        operation[0],
        operation[1],
        GATEWAY_MAC[0],
        GATEWAY_MAC[1],
        GATEWAY_MAC[2],
        GATEWAY_MAC[3],
        GATEWAY_MAC[4],
        GATEWAY_MAC[5],
        gateway[0],
        gateway[1],
        gateway[2],
        gateway[3],
        mac[0],
        mac[1],
        mac[2],
        mac[3],
        mac[4],
        mac[5],
        address[0],
        address[1],
        address[2],
        address[3],
    ]
}
