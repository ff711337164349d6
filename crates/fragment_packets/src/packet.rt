// What a frame is: RFC 791, sections 3.1 and 3.2, as document 02 condenses them.
ghost use Rattle.std.specs.Prelude.{◌≡◌, ◌-◌, ◌^◌, ◌≤◌, ◌<◌, min};
ghost use Rattle.bitmap.specs.Bitmap.{blocks_of_lem};
ghost use Rattle.fragment_packets.specs.Packets.{sound, sound_header, packet_of, is_whole_lem, good_length, datagram_of_lem, end_of, first_block, stop_block};

use bitmap::BLOCK;
use sums::sum;
use wire::bytes::{byte_at, u16be, u32be};
use wire::{ethernet, ipv4};

const VERSION: u8 = 4;

const SHORTEST_FRAME: usize = ethernet::HEADER + ipv4::HEADER;

// A datagram's name: RFC 791, section 3.2.
#[derive(Clone, Copy, PartialEq, Eq)]
pub struct Datagram {
    pub source: u32,
    pub target: u32,
    pub protocol: u8,
    pub id: u16,
}

// A fragment: its datagram, where its payload stands in the frame, its place in the datagram's
// payload, and whether it is the last. Any numbers may stand in it; one of `read` ends within the longest
// payload. (With an invariant that says so, callers that pass a `Packet` by value twice had no proof.)
#[derive(Clone, Copy)]
pub struct Fragment {
    pub datagram: Datagram,
    pub start: usize,
    pub length: usize,
    pub offset: usize,
    pub last: bool,
}

impl Fragment {
    // Where its bytes end in the datagram's payload; the largest number where that is past all numbers.
    pub fn end(self) -> usize
        ensures place { result ≡ min (end_of self) (2 ^ 64 - 1) }
        ensures short { end_of self ≤ 65515 → result ≤ 65515 }
    {
        self.offset.saturating_add(self.length)
    }

    // Its first block.
    pub fn first_block(self) -> usize
        ensures { result ≡ first_block self }
    {
        self.offset / BLOCK
    }

    // The block behind its last, where it ends as `end` says. It counts as `blocks_of` does, which takes 32 bits,
    // and an end may have 64.
    #[tactic(auto, unfolding(bitmap::specs::Bitmap::blocks_of_lem))]
    pub fn stop_block(self) -> usize
        ensures place { result ≡ blocks_of_lem (min (end_of self) (2 ^ 64 - 1)) }
        ensures below { end_of self < 2 ^ 64 → result ≡ stop_block self }
    {
        self.end().div_ceil(BLOCK)
    }
}

// A frame that is fit: a whole datagram, or a part of one.
#[derive(Clone, Copy)]
pub enum Packet {
    Whole { start: usize, length: usize },
    Part(Fragment),
}

// What the frame is; None where it is unfit.
#[tactic(auto, unfolding(crate::specs::Packets::packet_of, crate::specs::Packets::payload_length, crate::specs::Packets::fragment_of, crate::specs::Packets::sound, crate::specs::Packets::sound_header))]
pub fn read(frame: &[u8]) -> Option<Packet>
    ensures { result ≡ packet_of frame.now }
{
    if !is_sound(frame) {
        return None;
    }
    let packet = &frame[ethernet::HEADER..];
    let header = ipv4::header_length(packet, 0);
    let start = ethernet::HEADER + header;
    let length = usize::from(u16be(packet, ipv4::TOTAL_LENGTH)) - header;
    if is_whole(packet) {
        return Some(Packet::Whole { start, length });
    }
    let more = ipv4::more_fragments(packet);
    if !is_good_length(more, length) {
        return None;
    }
    let offset = ipv4::fragment_offset(packet);
    if ipv4::PAYLOAD_LIMIT < offset + length {
        return None;
    }
    Some(Packet::Part(Fragment {
        datagram: datagram_of(packet),
        start,
        length,
        offset,
        last: !more,
    }))
}

// Whether the frame holds an IPv4 packet with a sound header.
#[tactic(auto, unfolding(crate::specs::Packets::sound))]
fn is_sound(frame: &[u8]) -> bool
    ensures { result ≡ sound frame.now }
{
    if frame.len() < SHORTEST_FRAME {
        return false;
    }
    if ethernet::eth_type(frame) != ethernet::IPV4 {
        return false;
    }
    has_sound_header(&frame[ethernet::HEADER..])
}

#[tactic(auto, unfolding(crate::specs::Packets::sound_header))]
fn has_sound_header(packet: &[u8]) -> bool
    ensures { result ≡ sound_header packet.now }
{
    if ipv4::version(packet) != VERSION {
        return false;
    }
    let header = ipv4::header_length(packet, 0);
    if header < ipv4::HEADER {
        return false;
    }
    let total = usize::from(u16be(packet, ipv4::TOTAL_LENGTH));
    if total < header {
        return false;
    }
    if packet.len() < total {
        return false;
    }
    sum(0, &packet[..header]) == ipv4::SUMS_RIGHT
}

#[tactic(auto, unfolding(crate::specs::Packets::is_whole_lem))]
fn is_whole(packet: &[u8]) -> bool
    ensures { result ≡ is_whole_lem packet.now }
{
    if ipv4::more_fragments(packet) {
        return false;
    }
    ipv4::fragment_offset(packet) == 0
}

#[tactic(auto, unfolding(crate::specs::Packets::good_length))]
fn is_good_length(more: bool, length: usize) -> bool
    ensures { result ≡ good_length more length }
{
    if length == 0 {
        return false;
    }
    if !more {
        return true;
    }
    length % 8 == 0
}

// The name of the datagram that the packet belongs to.
#[tactic(auto, unfolding(crate::specs::Packets::datagram_of_lem))]
fn datagram_of(packet: &[u8]) -> Datagram
    ensures { result ≡ datagram_of_lem packet.now }
{
    Datagram {
        source: u32be(packet, ipv4::SOURCE),
        target: u32be(packet, ipv4::TARGET),
        protocol: byte_at(packet, ipv4::PROTOCOL),
        id: u16be(packet, ipv4::IDENTIFICATION),
    }
}
