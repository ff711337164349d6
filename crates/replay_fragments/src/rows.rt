// The rows of the tally: lines that are not understood, spoiled replays, the others by their origin, and
// behind them their calls by the answer that is expected.
use std::io;
use vectors::Tally;

pub const UNREAD: usize = 0;

pub const SPOILED: usize = 1;

// Origins are counted from 1.
pub const ORIGINS: usize = 1;

const CALLS: usize = 6;

// The first refusal is 10, and it stands behind four answers.
const FIRST_REFUSAL: u8 = 10;

const ANSWERS: usize = 4;

// The row of a call that is to be answered so. (An answer stays a number: a line has it as one.)
pub fn row_of(answer: u8) -> Option<usize> {
    match answer {
        0..=3 => Some(CALLS + usize::from(answer)),
        10..=13 => Some(CALLS + ANSWERS + usize::from(answer - FIRST_REFUSAL)),
        _ => None,
    }
}

// The names of the rows, in their order.
pub fn print<R: Print>(rt: &R, tally: Tally) -> io::Result<()> {
    let names = b"line not understood\n\
          spoiled replay, found wrong\n\
          the operating system's ping, its fragments in many orders\n\
          scapy's trains, in many orders\n\
          hostile trains\n\
          trains drawn at random\n\
          calls that are to answer passed\n\
          calls that are to answer stored\n\
          calls that are to answer complete\n\
          calls that are to answer released\n\
          calls that are to be refused, 10\n\
          calls that are to be refused, 11\n\
          calls that are to be refused, 12\n\
          calls that are to be refused, 13\n";
    vectors::print(rt, tally, names, CALLS)
}
