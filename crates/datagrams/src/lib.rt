// UDP datagrams, into a lent buffer, with the checksum of RFC 768. No public function relies on checks by its
// caller.
#![tactic(auto)]

ghost use Rattle.std.specs.Prelude.{◌≡◌, length, ◌+◌, ◌-◌};
ghost use Rattle.record.specs.Answer.{Wrote, as_verdict};
ghost use Rattle.datagrams.specs.Builders.{make_udp_payload_lem};
ghost use Rattle.sums.specs.Rfc1071.{total, fold};
ghost use Rattle.wire.specs.Rfc768.{datagram_header, pseudo_header_lem, transmitted as Rfc768·transmitted};

use base::put;
use record::{Refusal, within_limit, within_room};
use sums::sum;
use wire::ipv4;
use wire::udp::{DATA_LIMIT, HEADER, pseudo_header};

// Between whom a datagram goes, and its length with the header.
#[derive(Clone, Copy)]
pub struct UdpDatagram {
    pub src_ip: [u8; 4],
    pub src_port: u16,
    pub dst_ip: [u8; 4],
    pub dst_port: u16,
    pub len: u16,
}

// A datagram around `data`. Its checksum covers the addresses of the packet that it is to lie in. (README
// names it with these parameters, so they stay one by one.)
pub fn make_udp_payload(
    src_ip: [u8; 4],
    src_port: u16,
    dst_ip: [u8; 4],
    dst_port: u16,
    data: &[u8],
    out: &mut [u8],
) -> Result<usize, Refusal>
    ensures { Wrote
        (make_udp_payload_lem src_ip dst_ip src_port dst_port «data».now (length out.old))
        out.old out.new (as_verdict result) }
{
    let len = within_limit(DATA_LIMIT, data.len())?;
    let need = within_room(out.len(), HEADER + len)?;
    let datagram = UdpDatagram {
        src_ip,
        src_port,
        dst_ip,
        dst_port,
        len: need as u16,
    };
    let header = datagram.header(sum(datagram.front_sum(), data));
    put(out, 0, &header);
    put(out, HEADER, data);
    Ok(need)
}

impl UdpDatagram {
    // The sum of what stands before its data: the pseudo-header, and the header with its checksum 0. It goes
    // on over the data, wherever that lies, so that nothing is copied.
    pub fn front_sum(self) -> u16
        ensures { result ≡ fold
            (total (pseudo_header_lem self.src_ip self.dst_ip 17 self.len)
            + total (datagram_header 0 self.src_port self.dst_port self.len)) }
    {
        let pseudo = pseudo_header(self.src_ip, self.dst_ip, ipv4::UDP, self.len);
        let blank = self.header_with(0);
        sum(sum(0, &pseudo), &blank)
    }

    // Its header, by the sum of all that its checksum covers.
    pub fn header(self, sum_of_all: u16) -> [u8; 8]
        ensures { result ≡ datagram_header (Rfc768·transmitted (65535 - sum_of_all)) self.src_port self.dst_port self.len }
    {
        self.header_with(transmitted(65535 - sum_of_all))
    }

    // (Byte by byte, as `wire::udp::pseudo_header`.)
    fn header_with(self, csum: u16) -> [u8; 8]
        ensures { result ≡ datagram_header csum self.src_port self.dst_port self.len }
    {
        let source = self.src_port.to_be_bytes();
        let target = self.dst_port.to_be_bytes();
        let len = self.len.to_be_bytes();
        let csum = csum.to_be_bytes();
        [
            source[0], source[1], target[0], target[1], len[0], len[1], csum[0], csum[1],
        ]
    }
}

// 0 says that there is no checksum, so a computed 0 is sent as all ones.
fn transmitted(computed: u16) -> u16
    ensures { result ≡ Rfc768·transmitted computed }
{
    if computed == 0 {
        return 65535;
    }
    computed
}
