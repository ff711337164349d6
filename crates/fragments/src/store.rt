// The calls that change a store: a frame is taken, the store released.
ghost use Rattle.std.specs.Prelude.{◌≡◌, ◌+◌, ◌≤◌, ◌==◌, length, Ok};
ghost use Rattle.bitmap.specs.Bitmap.{bit, blocks_of_lem, count, having};
ghost use Rattle.fragment_packets.specs.Packets.{end_of, first_block, stop_block};
ghost use Rattle.fragments.specs.helpers.Settling.{Settles};
ghost use Rattle.fragments.specs.Promises.{Takes, Effect, Releases};

use crate::answer::Taken;
use base::put;
use bitmap::blocks_of;
use fragment_packets::{Datagram, Fragment};
use fragment_rules::{Answer, Refusal, Ruling, State, is_of_size, rule};

// Takes a guest's frame into its store. (One pattern for both matches was tried: the check makes no proof of
// it.)
#[tactic(auto, using(crate::proofs::Ruled::stored, fragment_packets::proofs::Fitting::part_fits, crate::proofs::Storing::of_size), unfolding(crate::specs::Answer::said_for, crate::specs::Outcomes::outcome_of))]
pub fn take(state: State, frame: &[u8], bytes: &mut [u8], bits: &mut [u64]) -> Taken
    ensures { Takes state frame.now bytes.old bits.old bytes.new bits.new result }
{
    match rule(state, frame, bytes.len(), bits) {
        Err(refusal) => Taken {
            answer: Err(refusal),
            state,
        },
        Ok(ruling) => match ruling {
            Ruling::Pass => Taken {
                answer: Ok(Answer::Passed),
                state,
            },
            Ruling::Write(fragment, end) => write(fragment, end, frame, bytes, bits),
        },
    }
}

// The fragment's payload is copied to its place, and its blocks are marked. Bytes and bits are lent one by
// one, as in `take` and `release`, whose signatures stand: for this one call a struct of the two is no
// plainer.
#[tactic(auto, using(crate::proofs::Storing::copied, crate::proofs::Storing::marked))]
fn write(
    fragment: Fragment,
    end: Option<u16>,
    frame: &[u8],
    bytes: &mut [u8],
    bits: &mut [u64],
) -> Taken
    requires in_frame { fragment.start + fragment.length ≤ length frame.now }
    requires short { end_of fragment ≤ 65515 }
    requires of_size { (length bytes.old ≡ 65515) × (length bits.old ≡ 128) }
    ensures settles { Settles fragment.datagram end (having (bit bits.old) (first_block fragment) (stop_block fragment)) result }
    ensures effect { Effect (Ok (Ruling.Write fragment end)) frame.now bytes.old bits.old bytes.new bits.new }
{
    let start = fragment.start;
    put(
        bytes,
        fragment.offset,
        &frame[start..start + fragment.length],
    );
    bitmap::mark(bits, fragment.first_block(), fragment.stop_block());
    settle(fragment.datagram, end, bits)
}

// Complete when the end is known and no block before it is missing.
#[tactic(auto, unfolding(crate::specs::Answer::said_for, crate::specs::Outcomes::settled))]
fn settle(datagram: Datagram, end: Option<u16>, bits: &[u64]) -> Taken
    ensures { Settles datagram end (bit bits.now) result }
{
    match end {
        Some(length) if has_all(bits, length) => Taken {
            answer: Ok(Answer::Complete),
            state: State::Complete { datagram, length },
        },
        _ => Taken {
            answer: Ok(Answer::Stored),
            state: State::Filling { datagram, end },
        },
    }
}

// Whether each block of the first `length` bytes is there.
fn has_all(bits: &[u64], length: u16) -> bool
    ensures { result ≡ (count (bit bits.now) 0 (blocks_of_lem length) == blocks_of_lem length) }
{
    let blocks = blocks_of(u32::from(length));
    bitmap::count(bits, 0, blocks) == blocks
}

// Empties the store.
#[tactic(auto, using(crate::proofs::Storing::of_size), unfolding(crate::specs::Answer::said_for))]
pub fn release(state: State, bytes: &[u8], bits: &mut [u64]) -> Taken
    ensures { Releases state bytes.now bits.old bits.new result }
{
    if !is_of_size(bytes.len(), bits.len()) {
        return Taken {
            answer: Err(Refusal::Unfit),
            state,
        };
    }
    bitmap::clear(bits);
    Taken {
        answer: Ok(Answer::Released),
        state: State::Empty,
    }
}
