// The IPv4 header: RFC 791, section 3.1.
ghost use Rattle.base.specs.Tells.{Tells};
ghost use Rattle.grammar.specs.Grammar.{IPv4, Unfragmented};

use sums::sum;
use wire::bytes::u16be;
use wire::ipv4;

// Whether `packet` is all of an IPv4 packet with a right header.
pub fn is_ipv4(packet: &[u8]) -> bool
    ensures { Tells result (IPv4 packet.now) }
{
    if ipv4::version(packet) != 4 {
        return false;
    }
    let header = ipv4::header_length(packet, 0);
    if header < ipv4::HEADER {
        return false;
    }
    let total = usize::from(u16be(packet, ipv4::TOTAL_LENGTH));
    if total != packet.len() {
        return false;
    }
    if total < header {
        return false;
    }
    if !is_unfragmented(packet) {
        return false;
    }
    sum(0, &packet[..header]) == ipv4::SUMS_RIGHT
}

// Whether the reserved bit is 0 and the packet no fragment.
fn is_unfragmented(packet: &[u8]) -> bool
    ensures { Tells result (Unfragmented packet.now) }
{
    let field = u16be(packet, ipv4::FLAGS_AND_OFFSET);
    if ipv4::reserved_in(field) != 0 {
        return false;
    }
    if ipv4::more_in(field) {
        return false;
    }
    ipv4::offset_in(field) == 0
}
