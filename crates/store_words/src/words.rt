// A state in six words, there and back: the C interface, where a phase is a number and what a state lacks is
// 0.
ghost use Rattle.std.specs.Prelude.{◌≡◌, ◌<◌};
ghost use Rattle.store_words.specs.Words.{state_of, words_of, laid};
ghost use Rattle.store_words.specs.helpers.Range.{NameInRange};

use fragments::{Datagram, State};

const EMPTY: u32 = 0;

const FILLING: u32 = 1;

const END_KNOWN: u32 = 2;

const COMPLETE: u32 = 3;

#[tactic(auto, unfolding(crate::specs::Words::state_of, crate::specs::Words::datagram_in, crate::specs::Words::end_in))]
pub fn state_of(words: [u32; 6]) -> State
    ensures { result ≡ state_of words }
{
    // What C put above a number's own bits counts for nothing, so the low ones are cut out by `%`.
    let datagram = Datagram {
        source: words[1],
        target: words[2],
        protocol: (words[3] % 256) as u8,
        id: (words[4] % 65536) as u16,
    };
    let end = (words[5] % 65536) as u16;
    match words[0] {
        EMPTY => State::Empty,
        FILLING => State::Filling {
            datagram,
            end: None,
        },
        END_KNOWN => State::Filling {
            datagram,
            end: Some(end),
        },
        _ => State::Complete {
            datagram,
            length: end,
        },
    }
}

// Read again, the words are the state.
pub fn words_of(state: State) -> [u32; 6]
    ensures { (result ≡ words_of state) × (state_of result ≡ state) }
{
    match state {
        State::Empty => [0; 6],
        State::Filling { datagram, end } => match end {
            None => lay(FILLING, datagram, 0),
            Some(known) => lay(END_KNOWN, datagram, known),
        },
        State::Complete { datagram, length } => lay(COMPLETE, datagram, length),
    }
}

#[tactic(auto, unfolding(crate::specs::Words::laid))]
fn lay(phase: u32, datagram: Datagram, end: u16) -> [u32; 6]
    ensures { (result ≡ laid phase datagram end) × NameInRange datagram × (end < 65536) }
{
    [
        phase,
        datagram.source,
        datagram.target,
        u32::from(datagram.protocol),
        u32::from(datagram.id),
        u32::from(end),
    ]
}
