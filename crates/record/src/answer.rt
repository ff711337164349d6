// What one call answers.
use crate::guest::Guest;

// What becomes of a frame that is not refused, or of a call that builds: document 01's answers 0 to 4, in its
// order.
#[derive(Clone, Copy, PartialEq, Eq)]
pub enum Verdict {
    Drop,
    Reply(usize),
    Dns { start: usize, len: usize },
    Relay { start: usize, len: usize },
    Tcp(usize),
}

// Why nothing was written and no record changed: document 01's answers 5 to 7, in its order. Each holds what
// the document says with it: the bytes needed, the length that is past its limit, the place of the option
// that is cut off.
#[derive(Clone, Copy, PartialEq, Eq)]
pub enum Refusal {
    NoRoom(usize),
    TooLong(usize),
    CutType(usize),
}

// What a call that may change the record answers: the record comes back beside the verdict, on a refusal too.
#[derive(Clone, Copy, PartialEq, Eq)]
pub struct Answer {
    pub verdict: Result<Verdict, Refusal>,
    pub guest: Guest,
}
