// Document 02's refusals in their order, one test a line.
ghost use Rattle.std.specs.Prelude.{◌≡◌, ◌≤◌};
ghost use Rattle.bitmap.specs.Bitmap.{bit};
ghost use Rattle.fragment_rules.specs.Rules.{ruling, part_ruling, is_held, overlaps, known_end_lem, wrong_end, end_with_lem, of_size_lem};
ghost use Rattle.fragment_packets.specs.Packets.{end_of};

use crate::answer::{Refusal, State};
use fragment_packets::{Datagram, Fragment, Packet, read};
use wire::ipv4;

// The numbers of 64 bits that a bitmap is lent as, and the blocks that have a bit in them.
const BITMAP: usize = 128;

const BLOCKS: usize = BITMAP * 64;

// What is to be done with a frame that is not refused: nothing, or its fragment is to be written, and
// the end kept that is known then.
#[derive(Clone, Copy)]
pub enum Ruling {
    Pass,
    Write(Fragment, Option<u16>),
}

// What is to be done with `frame`, where `bytes` of the store are lent.
#[tactic(auto, using(fragment_packets::proofs::Fitting::part_fits), unfolding(crate::specs::Rules::ruling, crate::specs::Rules::packet_ruling))]
pub fn rule(state: State, frame: &[u8], bytes: usize, bits: &[u64]) -> Result<Ruling, Refusal>
    ensures { result ≡ ruling state frame.now bytes bits.now }
{
    if !is_of_size(bytes, bits.len()) {
        return Err(Refusal::Unfit);
    }
    match read(frame).ok_or(Refusal::Unfit)? {
        Packet::Whole { .. } => Ok(Ruling::Pass),
        Packet::Part(fragment) => rule_part(state, fragment, bits),
    }
}

// The same of a fragment that is fit.
#[tactic(auto, unfolding(crate::specs::Rules::part_ruling))]
fn rule_part(state: State, fragment: Fragment, bits: &[u64]) -> Result<Ruling, Refusal>
    requires { end_of fragment ≤ 65515 }
    ensures { result ≡ part_ruling state (bit bits.now) fragment }
{
    let end = known_end(state);
    if is_held(state, fragment.datagram) {
        return Err(Refusal::Held);
    }
    if has_block(fragment, bits) {
        return Err(Refusal::Overlap);
    }
    if has_wrong_end(fragment, end, bits) {
        return Err(Refusal::WrongEnd);
    }
    Ok(Ruling::Write(fragment, end_with(fragment, end)))
}

// Whether the store is lent at its size: room for the longest payload, and a bit for each of its blocks.
#[tactic(auto, unfolding(crate::specs::Rules::of_size_lem))]
pub fn is_of_size(bytes: usize, bits: usize) -> bool
    ensures { result ≡ of_size_lem bytes bits }
{
    bytes == ipv4::PAYLOAD_LIMIT && bits == BITMAP
}

// 11: the store holds a complete datagram or another one.
#[tactic(auto, unfolding(crate::specs::Rules::is_held, crate::specs::Rules::same_datagram))]
fn is_held(state: State, datagram: Datagram) -> bool
    ensures { result ≡ is_held state datagram }
{
    match state {
        State::Empty => false,
        State::Filling { datagram: held, .. } => held != datagram,
        State::Complete { .. } => true,
    }
}

// 12: a block is already there.
#[tactic(auto, unfolding(crate::specs::Rules::overlaps))]
fn has_block(fragment: Fragment, bits: &[u64]) -> bool
    requires { end_of fragment ≤ 65515 }
    ensures { result ≡ overlaps fragment (bit bits.now) }
{
    bitmap::count(bits, fragment.first_block(), fragment.stop_block()) != 0
}

// The end, as far as the store knows it.
#[tactic(auto, unfolding(crate::specs::Rules::known_end_lem))]
fn known_end(state: State) -> Option<u16>
    ensures { result ≡ known_end_lem state }
{
    match state {
        State::Empty => None,
        State::Filling { end, .. } => end,
        State::Complete { length, .. } => Some(length),
    }
}

// 13: a second last, a fragment past the known end, or a last that ends at or before a stored block's start.
#[tactic(auto, unfolding(crate::specs::Rules::wrong_end))]
fn has_wrong_end(fragment: Fragment, end: Option<u16>, bits: &[u64]) -> bool
    requires { end_of fragment ≤ 65515 }
    ensures { result ≡ wrong_end fragment end (bit bits.now) }
{
    match end {
        Some(known) => fragment.last || usize::from(known) < fragment.end(),
        None => fragment.last && bitmap::count(bits, fragment.stop_block(), BLOCKS) != 0,
    }
}

// The end once the fragment is stored: a last one tells it.
#[tactic(auto, unfolding(crate::specs::Rules::end_with_lem))]
fn end_with(fragment: Fragment, end: Option<u16>) -> Option<u16>
    requires { end_of fragment ≤ 65515 }
    ensures { result ≡ end_with_lem fragment end }
{
    if fragment.last {
        return Some(fragment.end() as u16);
    }
    end
}
