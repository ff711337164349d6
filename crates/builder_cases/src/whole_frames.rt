// A whole frame that another made: its checksums are right.
use vectors::part;
use wire::bytes::u16be;
use wire::ipv4::{ICMP, TCP, UDP, ip_dst, ip_hlen, ip_proto, ip_src};

// The IPv4 header sums right, and so does what it carries: with its pseudo-header for TCP, and for
// UDP where the checksum is not 0.
pub fn sums_right(frame: &[u8]) -> bool {
    let hlen = ip_hlen(frame);
    let total = u16be(frame, 16) as usize;
    if frame.len() != 14 + total || total < hlen {
        return false;
    }
    if sums::checksum(part(frame, 14, hlen)) != 0 {
        return false;
    }
    let payload = part(frame, 14 + hlen, total - hlen);
    match ip_proto(frame) {
        ICMP => sums::checksum(payload) == 0,
        TCP => with_pseudo_header(frame, payload) == 0,
        UDP => u16be(payload, 6) == 0 || with_pseudo_header(frame, payload) == 0,
        _ => true,
    }
}

// (`packets_strict` has such a sum too, for packets that are right in all else. This one judges sums alone.)
fn with_pseudo_header(frame: &[u8], payload: &[u8]) -> u16 {
    let len = (payload.len() % 65536) as u16;
    let pseudo = wire::udp::pseudo_header(ip_src(frame), ip_dst(frame), ip_proto(frame), len);
    65535 - sums::sum(sums::sum(0, &pseudo), payload)
}
