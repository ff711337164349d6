// One call: a frame is taken or the store is released, and all that can be seen of it is compared.
ghost use Rattle.std.specs.Prelude.{◌≤◌};

use fragments::{Answer, Refusal, State, Taken};

// A store of the largest size that is lent, and its state.
#[derive(Drop)]
pub struct Store<'a> {
    pub state: State,
    pub bytes: &'a mut [u8],
    pub bits: [u64; 129],
}

// The frame that is to be taken, or None for a release; at which size the store is lent; and what is to be
// answered and handed out. (Size and answer are the numbers that a step of a line has.)
#[derive(Clone, Copy)]
pub struct Call<'a> {
    pub frame: Option<&'a [u8]>,
    pub lent: u16,
    pub answer: u8,
    pub payload: &'a [u8],
}

// Answers that may change the store; with every other it has to stay as it was.
const STORED: u8 = Answer::Stored as u8;

const COMPLETE: u8 = Answer::Complete as u8;

pub const RELEASED: u8 = Answer::Released as u8;

const STORE_BYTES: usize = 65515;

const STORE_WORDS: usize = 128;

impl<'a> Store<'a> {
    // Makes the call: whether it is answered as it is to be, and leaves what it may not change.
    pub fn call(&mut self, call: Call<'_>) -> bool {
        let mut space: [u8; 70400] = vectors::filled(0);
        let old_bytes = vectors::front(&mut space, self.bytes.len());
        base::put(old_bytes, 0, self.bytes);
        let old_bits = self.bits;
        let old_state = self.state;
        let agrees = self.answers(call);
        agrees && self.is_kept(call.answer, old_state, old_bytes, &old_bits)
    }

    // Whether the answer and the payload handed out are the expected ones.
    fn answers(&mut self, call: Call<'_>) -> bool {
        let bytes = vectors::front(self.bytes, bytes_lent(call.lent));
        // A part of a field that is an array is taken in two steps: of one the check makes no proof.
        let words = &mut self.bits[..];
        let bits = &mut words[..words_lent(call.lent)];
        match call.frame {
            Some(frame) => {
                let taken = fragments::take(self.state, frame, bytes, bits);
                self.state = taken.state;
                is_told(call, taken, frame, bytes)
            }
            None => {
                let taken = fragments::release(self.state, bytes, bits);
                self.state = taken.state;
                is_told(call, taken, b"", bytes)
            }
        }
    }

    // Whether the store is what the answer says: empty behind a release, and else as it was. The word
    // behind the store's last is not its own.
    fn is_kept(&self, answer: u8, state: State, bytes: &[u8], bits: &[u64; 129]) -> bool {
        match answer {
            STORED | COMPLETE => true,
            RELEASED => {
                *self.bytes == *bytes
                    && self.state == State::Empty
                    && self.bits[..STORE_WORDS].iter().all(|word| *word == 0)
            }
            _ => *self.bytes == *bytes && self.state == state && self.bits == *bits,
        }
    }
}

// Whether the call's answer and payload are what came of it.
fn is_told(call: Call<'_>, taken: Taken, frame: &[u8], bytes: &[u8]) -> bool {
    let payload = fragments::payload(taken, frame, bytes);
    number_of(taken.answer) == call.answer && *payload == *call.payload
}

// An answer by its place among the answers, a refusal by its number.
fn number_of(answer: Result<Answer, Refusal>) -> u8 {
    match answer {
        Ok(answer) => answer as u8,
        Err(refusal) => refusal as u8,
    }
}

// How many bytes of the store are lent.
fn bytes_lent(lent: u16) -> usize {
    match lent {
        1 => STORE_BYTES - 1,
        2 => STORE_BYTES + 1,
        5 | 7 => 0,
        _ => STORE_BYTES,
    }
}

fn words_lent(lent: u16) -> usize
    ensures { result ≤ 129 }
{
    match lent {
        3 => STORE_WORDS - 1,
        4 => STORE_WORDS + 1,
        6 | 7 => 0,
        _ => STORE_WORDS,
    }
}
