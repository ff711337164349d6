// TCP segments in their frames: who speaks to whom, and the builder. No public function relies on
// checks by its caller.
#![tactic(auto)]

ghost use Rattle.std.specs.Prelude.{◌≡◌, ◌++◌, ◌≤◌, length};
ghost use Rattle.record.specs.Answer.{Meets, Wrote, as_verdict};
ghost use Rattle.tcp.specs.Builders.{built_tcp_frame, make_tcp_frame_lem};
ghost use Rattle.sums.specs.Rfc1071.{checksum as Rfc1071·checksum};
ghost use Rattle.tcp.specs.Rfc9293.{segment_header_lem, options as Rfc9293·options};
ghost use Rattle.wire.specs.Rfc768.{pseudo_header_lem};

use base::put;
use frames::{Packet, put_headers};
use record::{Answer, Guest, Refusal, within_limit, within_room};
use sums::sum;
use wire::tcp::{HEADER, SYN};
use wire::udp::pseudo_header;
use wire::{ethernet, ipv4};

// Who speaks to whom; `dst_mac` is the guest's.
#[derive(Clone, Copy)]
pub struct Endpoints {
    pub dst_mac: [u8; 6],
    pub src_ip: [u8; 4],
    pub src_port: u16,
    pub dst_ip: [u8; 4],
    pub dst_port: u16,
}

// A segment but for its data: what its header says, and its length with header and data.
#[derive(Clone, Copy)]
struct Segment {
    ends: Endpoints,
    seq: u32,
    ack: u32,
    flags: u8,
    len: u16,
}

// The segment lies behind the Ethernet and the IPv4 header.
const SEGMENT_AT: usize = ethernet::HEADER + ipv4::HEADER;

const OPTIONS_AT: usize = SEGMENT_AT + HEADER;

// The longest data behind a header without options.
const DATA_LIMIT: usize = ipv4::PAYLOAD_LIMIT - HEADER;

const WINDOW: u16 = 65535;

// A largest segment of 1,460 bytes, a no-operation, a window shift of 7.
const SYN_OPTIONS: [u8; 8] = [0x02, 0x04, 0x05, 0xb4, 0x01, 0x03, 0x03, 0x07];

// A frame around a segment with `data`. Where the SYN flag is set, its options stand before the data. (A
// struct of the six would ask more of callers, who have it with these parameters.)
pub fn make_tcp_frame(
    guest: Guest,
    ends: Endpoints,
    seq: u32,
    ack: u32,
    flags: u8,
    data: &[u8],
    out: &mut [u8],
) -> Answer
    ensures { Meets
        (make_tcp_frame_lem guest ends seq ack flags «data».now (length out.old))
        out.old out.new result }
{
    guest.built(build_frame(guest.id, ends, seq, ack, flags, data, out))
}

// The same with no record to hand back: the bytes written, or why none was. Each piece stands right behind
// the one before it: the frame's headers, the segment's, its options, the data.
fn build_frame(
    id: u16,
    ends: Endpoints,
    seq: u32,
    ack: u32,
    flags: u8,
    data: &[u8],
    out: &mut [u8],
) -> Result<usize, Refusal>
    ensures { Wrote
        (built_tcp_frame id ends seq ack flags «data».now (length out.old))
        out.old out.new (as_verdict result) }
{
    let options = options(flags);
    let data_len = within_limit(DATA_LIMIT - options.len(), data.len())?;
    let len = HEADER + options.len() + data_len;
    let need = within_room(out.len(), SEGMENT_AT + len)?;
    let src_ip = ends.src_ip;
    let dst_ip = ends.dst_ip;
    let packet = Packet {
        total: (ipv4::HEADER + len) as u16,
        id,
        proto: ipv4::TCP,
        src_ip,
        dst_ip,
    };
    let segment = Segment {
        ends,
        seq,
        ack,
        flags,
        len: len as u16,
    };
    put_headers(ends.dst_mac, packet, out);
    put(
        out,
        SEGMENT_AT,
        &segment.header_with(segment.checksum(data)),
    );
    put(out, OPTIONS_AT, options);
    put(out, OPTIONS_AT + options.len(), data);
    Ok(need)
}

impl Segment {
    // Over the pseudo-header, the header, its options and `data`. The sum goes on from piece to piece, so
    // that nothing is copied behind the pseudo-header.
    fn checksum(self, data: &[u8]) -> u16
        ensures { result ≡ Rfc1071·checksum
            (pseudo_header_lem self.ends.src_ip self.ends.dst_ip 6 self.len
            ++ (segment_header_lem 0 self.ends.src_port self.ends.dst_port self.seq self.ack self.flags
            ++ Rfc9293·options self.flags ++ «data».now)) }
    {
        let pseudo = pseudo_header(self.ends.src_ip, self.ends.dst_ip, ipv4::TCP, self.len);
        let blank = self.header_with(0);
        65535 - sum(sum(sum(sum(0, &pseudo), &blank), options(self.flags)), data)
    }

    // (Byte by byte, as `wire::udp::pseudo_header`.)
    fn header_with(self, csum: u16) -> [u8; 20]
        ensures { result ≡ segment_header_lem csum self.ends.src_port self.ends.dst_port self.seq self.ack self.flags }
    {
        let words = ((HEADER + options(self.flags).len()) / 4) as u8;
        let source = self.ends.src_port.to_be_bytes();
        let target = self.ends.dst_port.to_be_bytes();
        let seq = self.seq.to_be_bytes();
        let ack = self.ack.to_be_bytes();
        let window = WINDOW.to_be_bytes();
        let csum = csum.to_be_bytes();
        [
            source[0],
            source[1],
            target[0],
            target[1],
            seq[0],
            seq[1],
            seq[2],
            seq[3],
            ack[0],
            ack[1],
            ack[2],
            ack[3],
            words << 4,
            self.flags,
            window[0],
            window[1],
            csum[0],
            csum[1],
            0,
            0,
        ]
    }
}

// The options of a segment with these flags: only one with SYN has any.
fn options(flags: u8) -> &'static [u8]
    ensures { (result.now ≡ Rfc9293·options flags) × (length result.now ≤ 8) }
{
    if flags & SYN != 0 {
        return &SYN_OPTIONS;
    }
    &[]
}
