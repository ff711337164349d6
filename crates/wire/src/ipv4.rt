// IPv4: RFC 791, section 3.1. Offsets are counted from the packet's first byte.
ghost use Rattle.std.specs.Prelude.{◌≡◌, ◌≤◌, drop};
ghost use Rattle.wire.specs.Rfc894.{body};
ghost use Rattle.wire.specs.Rfc791.{version as Rfc791·version, header_length_lem, reserved_in_lem, more_in_lem, offset_in_lem, more_fragments_lem, fragment_offset_lem, protocol_of, source_of, target_of};

use crate::bytes::{byte_at, bytes_at, u16be};
use crate::ethernet;

// The header without options, and the longest payload behind one.
pub const HEADER: usize = 20;

pub const PAYLOAD_LIMIT: usize = 65515;

// Fields.
const VERSION_AND_LENGTH: usize = 0;

pub const TOTAL_LENGTH: usize = 2;

pub const IDENTIFICATION: usize = 4;

pub const FLAGS_AND_OFFSET: usize = 6;

pub const PROTOCOL: usize = 9;

pub const SOURCE: usize = 12;

pub const TARGET: usize = 16;

// Values of the protocol.
pub const ICMP: u8 = 1;

pub const TCP: u8 = 6;

pub const UDP: u8 = 17;

// What right bytes sum to, their checksum included: RFC 1071.
pub const SUMS_RIGHT: u16 = 65535;

// The high four bits of the first byte.
pub fn version(packet: &[u8]) -> u8
    ensures { result ≡ Rfc791·version packet.now }
{
    byte_at(packet, VERSION_AND_LENGTH) >> 4
}

// Of the packet that starts at `at`: the low four bits of its first byte count words of four bytes.
pub fn header_length(buf: &[u8], at: usize) -> usize
    ensures { (result ≡ header_length_lem (drop at buf.now)) × (result ≤ 60) }
{
    ((byte_at(buf, at) & 0x0f) as usize) << 2
}

// The parts of the field of flags and offset, split by shift and mask.
pub fn reserved_in(field: u16) -> u16
    ensures { result ≡ reserved_in_lem field }
{
    field >> 15
}

pub fn more_in(field: u16) -> bool
    ensures { result ≡ more_in_lem field }
{
    (field >> 13) & 1 == 1
}

// In bytes; the field counts blocks of eight.
pub fn offset_in(field: u16) -> usize
    ensures { (result ≡ offset_in_lem field) × (result ≤ 65528) }
{
    ((field & 0x1fff) as usize) << 3
}

#[tactic(auto, unfolding(crate::specs::Rfc791::more_fragments_lem))]
pub fn more_fragments(packet: &[u8]) -> bool
    ensures { result ≡ more_fragments_lem packet.now }
{
    more_in(u16be(packet, FLAGS_AND_OFFSET))
}

#[tactic(auto, unfolding(crate::specs::Rfc791::fragment_offset_lem))]
pub fn fragment_offset(packet: &[u8]) -> usize
    ensures { (result ≡ fragment_offset_lem packet.now) × (result ≤ 65528) }
{
    offset_in(u16be(packet, FLAGS_AND_OFFSET))
}

// The same of the packet in a frame, under the Rust's names.
const PROTOCOL_IN_FRAME: usize = ethernet::HEADER + PROTOCOL;

const SOURCE_IN_FRAME: usize = ethernet::HEADER + SOURCE;

const TARGET_IN_FRAME: usize = ethernet::HEADER + TARGET;

pub fn ip_hlen(frame: &[u8]) -> usize
    ensures { result ≡ header_length_lem (body frame.now) }
{
    header_length(frame, ethernet::HEADER)
}

pub fn ip_proto(frame: &[u8]) -> u8
    ensures { result ≡ protocol_of (body frame.now) }
{
    byte_at(frame, PROTOCOL_IN_FRAME)
}

pub fn ip_src(frame: &[u8]) -> [u8; 4]
    ensures { result ≡ source_of (body frame.now) }
{
    bytes_at(frame, SOURCE_IN_FRAME)
}

pub fn ip_dst(frame: &[u8]) -> [u8; 4]
    ensures { result ≡ target_of (body frame.now) }
{
    bytes_at(frame, TARGET_IN_FRAME)
}
