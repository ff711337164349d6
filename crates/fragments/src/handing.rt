// The payload that an answer hands out, and where it lies.
ghost use Rattle.std.specs.Prelude.{◌≡◌, ◌≤◌};
ghost use Rattle.fragment_packets.specs.Packets.{packet_of};
ghost use Rattle.fragments.specs.Handing.{site_of_lem, whole_payload, stored_length_lem, stored_payload, payload_of};

use crate::answer::{Site, Taken};
use fragment_packets::{Packet, read};
use fragment_rules::{Answer, Refusal, State};

// The payload, as a part of the frame that passed or of the store that is complete; for every other answer an
// empty part, as `payload_of` in specs/ has it, and so no Option. It goes by the answer: a host that takes
// other frames before it uses the payload keeps the `Taken` that said complete, or makes one with that answer
// and the state.
#[tactic(auto, unfolding(crate::specs::Handing::payload_at_lem))]
pub fn payload<'a>(taken: Taken, frame: &'a [u8], bytes: &'a [u8]) -> &'a [u8]
    ensures { result.now ≡ payload_of taken.answer taken.state frame.now bytes.now }
{
    match site_of(taken.answer) {
        Some(Site::Frame) => of_frame(frame),
        Some(Site::Store) => of_store(taken.state, bytes),
        None => &frame[..0],
    }
}

// Where the payload lies that an answer hands out; None where it hands out none.
#[tactic(auto, unfolding(crate::specs::Handing::site_of_lem))]
pub fn site_of(answer: Result<Answer, Refusal>) -> Option<Site>
    ensures { result ≡ site_of_lem answer }
{
    match answer {
        Ok(Answer::Passed) => Some(Site::Frame),
        Ok(Answer::Complete) => Some(Site::Store),
        _ => None,
    }
}

#[tactic(auto, using(fragment_packets::proofs::Fitting::whole_fits), unfolding(crate::specs::Handing::whole_payload))]
fn of_frame(frame: &[u8]) -> &[u8]
    ensures { result.now ≡ whole_payload frame.now (packet_of frame.now) }
{
    match read(frame) {
        Some(Packet::Whole { start, length }) => &frame[start..start + length],
        _ => &frame[..0],
    }
}

#[tactic(auto, unfolding(crate::specs::Handing::stored_payload))]
fn of_store(state: State, bytes: &[u8]) -> &[u8]
    ensures { result.now ≡ stored_payload bytes.now state }
{
    &bytes[..stored_length(state, bytes.len())]
}

// How many bytes of a complete payload stand in a store of which so many are lent; none where a state tells
// more, as `stored_length_lem` in specs/ has it, and so no Option.
#[tactic(auto, unfolding(crate::specs::Handing::stored_length_lem))]
pub fn stored_length(state: State, lent: usize) -> usize
    ensures { (result ≡ stored_length_lem state lent) × (result ≤ lent) }
{
    match state {
        State::Complete { length, .. } if usize::from(length) <= lent => usize::from(length),
        _ => 0,
    }
}
