// TCP: RFC 9293, section 3.1. Offsets are counted from the segment's first byte.
ghost use Rattle.std.specs.Prelude.{◌≡◌, ◌≤◌};
ghost use Rattle.wire.specs.Rfc9293.{data_offset};

use crate::bytes::byte_at;

// The header without options.
pub const HEADER: usize = 20;

const OFFSET: usize = 12;

// The control bit SYN.
pub const SYN: u8 = 0x02;

// The high four bits of byte 12 count words of four bytes.
pub fn header_length(segment: &[u8]) -> usize
    ensures { (result ≡ data_offset segment.now) × (result ≤ 60) }
{
    ((byte_at(segment, OFFSET) >> 4) as usize) << 2
}
