// Reassembly of fragments, for C: the state of a store is lent as six words.
ghost use Rattle.host.specs.Reassembly.{Took, Freed};

use fragments::{release, take};
use store_words::{place, report, state_of};

#[tactic(auto, using(crate::proofs::Reassembling::took_of))]
#[unsafe(no_mangle)]
pub extern "C" fn yavoledu_take(
    state: &mut [u32; 6],
    frame: &[u8],
    bytes: &mut [u8],
    bits: &mut [u64],
    payload: &mut [usize; 2],
) -> u32
    ensures { Took state.old frame.now bytes.old bits.old
        state.new bytes.new bits.new payload.new result }
{
    let taken = take(state_of(*state), frame, bytes, bits);
    *payload = place(taken, frame, bytes.len());
    report(taken, state)
}

#[tactic(auto, using(crate::proofs::Reassembling::freed_of))]
#[unsafe(no_mangle)]
pub extern "C" fn yavoledu_release(state: &mut [u32; 6], bytes: &[u8], bits: &mut [u64]) -> u32
    ensures { Freed state.old bytes.now bits.old state.new bits.new result }
{
    let taken = release(state_of(*state), bytes, bits);
    report(taken, state)
}
