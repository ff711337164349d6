// What came of a call, reported: the words where the state is a new one, and the number, as C has them.
ghost use Rattle.std.specs.Prelude.{◌≡◌};
ghost use Rattle.store_words.specs.Reports.{Reports};
ghost use Rattle.store_words.specs.Words.{state_of, words_of};

use crate::words::words_of;
use fragments::{Answer, State, Taken};

#[tactic(auto, unfolding(fragments::specs::Answer::said_for, crate::specs::Reports::number_of, crate::specs::Reports::changes))]
pub fn report(taken: Taken, words: &mut [u32; 6]) -> u32
    ensures { Reports words.old words.new taken result }
{
    let state = taken.state;
    match taken.answer {
        Ok(Answer::Passed) => 20,
        Ok(Answer::Stored) => keep(21, state, words),
        Ok(Answer::Complete) => keep(22, state, words),
        Ok(Answer::Released) => keep(23, state, words),
        Err(refusal) => refusal as u32,
    }
}

fn keep(number: u32, state: State, words: &mut [u32; 6]) -> u32
    ensures { (result ≡ number) × (words.new ≡ words_of state) × (state_of words.new ≡ state) }
{
    *words = words_of(state);
    number
}
