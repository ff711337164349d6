// IPv4 packets in Ethernet frames.
ghost use Rattle.std.specs.Prelude.{◌≡◌, length};
ghost use Rattle.base.specs.Buffer.{put_if_fits};
ghost use Rattle.record.specs.Answer.{Meets, Wrote, as_verdict};
ghost use Rattle.frames.specs.Builders.{built_in_place, make_ip_frame_lem, make_ip_frame_in_place_lem};
ghost use Rattle.frames.specs.Frames.{headers};
ghost use Rattle.wire.specs.Rfc791.{header_with_lem, header as Rfc791·header};

use crate::ethernet::ethernet_header;
use base::put;
use record::{Answer, Guest, Refusal, within_limit, within_room};
use sums::checksum;
use wire::ethernet;
use wire::ipv4::{HEADER, PAYLOAD_LIMIT};

const HEADER_AT: usize = ethernet::HEADER;

const PAYLOAD_AT: usize = HEADER_AT + HEADER;

// What differs from packet to packet in its header: its length with the header, its id, what it carries, and
// between whom.
#[derive(Clone, Copy)]
pub struct Packet {
    pub total: u16,
    pub id: u16,
    pub proto: u8,
    pub src_ip: [u8; 4],
    pub dst_ip: [u8; 4],
}

// A frame around `payload`, to `dst_mac` from the gateway. (README has this call with these
// parameters, so they stay one by one here and in the next; what is no public promise takes a `Packet`.)
pub fn make_ip_frame(
    guest: Guest,
    dst_mac: [u8; 6],
    src_ip: [u8; 4],
    dst_ip: [u8; 4],
    proto: u8,
    payload: &[u8],
    out: &mut [u8],
) -> Answer
    ensures { Meets
        (make_ip_frame_lem guest dst_mac src_ip dst_ip proto payload.now (length out.old))
        out.old out.new result }
{
    let len = payload.len();
    let answer = make_ip_frame_in_place(guest, dst_mac, src_ip, dst_ip, proto, len, out);
    if answer.verdict.is_ok() {
        put(out, PAYLOAD_AT, payload);
    }
    answer
}

// The same where the payload lies in the buffer, or is put there afterwards: its `len` bytes from 34 on.
pub fn make_ip_frame_in_place(
    guest: Guest,
    dst_mac: [u8; 6],
    src_ip: [u8; 4],
    dst_ip: [u8; 4],
    proto: u8,
    len: usize,
    out: &mut [u8],
) -> Answer
    ensures { Meets
        (make_ip_frame_in_place_lem guest dst_mac src_ip dst_ip proto len out.old)
        out.old out.new result }
{
    let id = guest.id;
    guest.built(build_in_place(id, dst_mac, src_ip, dst_ip, proto, len, out))
}

// The same with no record to hand back: the bytes written, or why none was. (It is called once, with what
// that call has.)
fn build_in_place(
    id: u16,
    dst_mac: [u8; 6],
    src_ip: [u8; 4],
    dst_ip: [u8; 4],
    proto: u8,
    len: usize,
    out: &mut [u8],
) -> Result<usize, Refusal>
    ensures { Wrote
        (built_in_place id dst_mac src_ip dst_ip proto len out.old)
        out.old out.new (as_verdict result) }
{
    within_limit(PAYLOAD_LIMIT, len)?;
    let need = within_room(out.len(), PAYLOAD_AT + len)?;
    let packet = Packet {
        total: (HEADER + len) as u16,
        id,
        proto,
        src_ip,
        dst_ip,
    };
    put_headers(dst_mac, packet, out);
    Ok(need)
}

// The headers of a packet, at the front of `out`; where they do not fit, nothing is written. As a call of its
// own it cost a ping 17 instructions more, and a TCP frame 40.
#[inline(always)]
pub fn put_headers(dst_mac: [u8; 6], packet: Packet, out: &mut [u8])
    ensures { out.new ≡ put_if_fits 0 (headers dst_mac packet.total packet.id packet.proto packet.src_ip packet.dst_ip) out.old }
{
    if out.len() < PAYLOAD_AT {
        return;
    }
    put(out, 0, &ethernet_header(dst_mac, ethernet::IPV4));
    put(out, HEADER_AT, &packet.header());
}

impl Packet {
    #[tactic(auto, unfolding(wire::specs::Rfc791::header))]
    fn header(self) -> [u8; 20]
        ensures { result ≡ Rfc791·header self.total self.id self.proto self.src_ip self.dst_ip }
    {
        self.header_with(checksum(&self.header_with(0)))
    }

    // (Byte by byte, as `wire::udp::pseudo_header`.)
    fn header_with(self, csum: u16) -> [u8; 20]
        ensures { result ≡ header_with_lem csum self.total self.id self.proto self.src_ip self.dst_ip }
    {
        let total = self.total.to_be_bytes();
        let id = self.id.to_be_bytes();
        let csum = csum.to_be_bytes();
        let source = self.src_ip;
        let target = self.dst_ip;
        [
            0x45, 0, total[0], total[1], id[0], id[1], 0x40, 0x00, 64, self.proto, csum[0],
            csum[1], source[0], source[1], source[2], source[3], target[0], target[1], target[2],
            target[3],
        ]
    }
}
