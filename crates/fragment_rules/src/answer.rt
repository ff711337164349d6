// What a store holds, beside its bytes and bits, and what a call answers.
use fragment_packets::Datagram;

// A store's state. `end` is where the datagram's payload ends, once its last fragment has come.
#[derive(Clone, Copy, PartialEq, Eq)]
pub enum State {
    Empty,
    Filling {
        datagram: Datagram,
        end: Option<u16>,
    },
    Complete {
        datagram: Datagram,
        length: u16,
    },
}

// The answers of document 02.
#[derive(Clone, Copy, PartialEq, Eq)]
pub enum Answer {
    Passed,
    Stored,
    Complete,
    Released,
}

// Its refusals, by their numbers.
#[derive(Clone, Copy, PartialEq, Eq)]
pub enum Refusal {
    Unfit = 10,
    Held = 11,
    Overlap = 12,
    WrongEnd = 13,
}
