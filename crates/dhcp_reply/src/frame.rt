// The frame.
ghost use Rattle.std.specs.Prelude.{◌≡◌};
ghost use Rattle.base.specs.Buffer.{put_if_fits};
ghost use Rattle.dhcp_reply.specs.Reply.{dhcp_frame_to};

use base::put;
use datagrams::UdpDatagram;
use dhcp_message::{REPLY_LENGTH, put_reply};
use frames::{Packet, put_headers};
use record::Network;
use sums::sum;
use wire::{ethernet, ipv4, udp};

// Document 02, 2/13: from the server's port to the client's. The Rust has them the other way round
// (docs/DIFFERENCES.md).
const REPLY_SOURCE: u16 = udp::DHCP_SERVER;

const REPLY_TARGET: u16 = udp::DHCP_CLIENT;

const DATAGRAM_AT: usize = ethernet::HEADER + ipv4::HEADER;

const MESSAGE_AT: usize = DATAGRAM_AT + udp::HEADER;

pub const FRAME: usize = MESSAGE_AT + REPLY_LENGTH;

// A reply of type `kind` to the message whose xid is `xid`, in its frame to `dst_mac`, at the front of `out`;
// where it does not fit, nothing is written. `mac` is the record's, not the request's.
// (It takes what `put_reply` does, and what the frame needs: the gateway has each of these by itself.)
pub fn put_dhcp_reply(
    net: Network,
    mac: [u8; 6],
    id: u16,
    dst_mac: [u8; 6],
    xid: u32,
    kind: u8,
    out: &mut [u8],
)
    ensures { out.new ≡ put_if_fits 0 (dhcp_frame_to net mac id dst_mac xid kind) out.old }
{
    if out.len() < FRAME {
        return;
    }
    let src_ip = net.gateway;
    let dst_ip = net.broadcast();
    put_reply(net, mac, xid, kind, &mut out[MESSAGE_AT..]);
    let len = (udp::HEADER + REPLY_LENGTH) as u16;
    let datagram = UdpDatagram {
        src_ip,
        src_port: REPLY_SOURCE,
        dst_ip,
        dst_port: REPLY_TARGET,
        len,
    };
    let all = sum(datagram.front_sum(), &out[MESSAGE_AT..FRAME]);
    put(out, DATAGRAM_AT, &datagram.header(all));
    let packet = Packet {
        total: (ipv4::HEADER as u16) + len,
        id,
        proto: ipv4::UDP,
        src_ip,
        dst_ip,
    };
    put_headers(dst_mac, packet, out);
}
