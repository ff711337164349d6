// The reply to a ping: its frame is written where it goes, with one copy of the request's bytes. No public
// function relies on checks by its caller.
#![tactic(auto)]

ghost use Rattle.std.specs.Prelude.{◌≡◌};
ghost use Rattle.echo_reply.specs.Reply.{put_echo_lem};

use base::put;
use frames::{Packet, put_headers};
use sums::checksum;
use wire::{ethernet, ipv4};

// The message lies behind the Ethernet and the IPv4 header.
pub const MESSAGE_AT: usize = ethernet::HEADER + ipv4::HEADER;

// Type, code and checksum; behind them nothing changes.
const CHANGED: usize = 4;

// The frame around the echo of `request`, at the front of `out`. Where the request has no checksum or is too
// long for a packet, or the frame does not fit, nothing is written. (The gateway has each of these by itself.)
pub fn put_echo_reply(
    dst_mac: [u8; 6],
    id: u16,
    src_ip: [u8; 4],
    dst_ip: [u8; 4],
    request: &[u8],
    out: &mut [u8],
)
    ensures { out.new ≡ put_echo_lem dst_mac id src_ip dst_ip request.now out.old }
{
    let len = request.len();
    if len < CHANGED {
        return;
    }
    if ipv4::PAYLOAD_LIMIT < len {
        return;
    }
    if out.len() < MESSAGE_AT + len {
        return;
    }
    let packet = Packet {
        total: (ipv4::HEADER + len) as u16,
        id,
        proto: ipv4::ICMP,
        src_ip,
        dst_ip,
    };
    put_headers(dst_mac, packet, out);
    // The request's bytes are copied once and summed once: with type, code and checksum 0 the message's sum
    // is that of the bytes behind them.
    let copied = &request[CHANGED..];
    let sum = checksum(copied).to_be_bytes();
    put(out, MESSAGE_AT, &[0, 0, sum[0], sum[1]]);
    put(out, MESSAGE_AT + CHANGED, copied);
}
