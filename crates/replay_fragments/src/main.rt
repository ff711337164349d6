// Replays trains of fragments through `fragments` and compares each call with stored answers, a line of
// standard input at a time (lines.rt has the form). It prints how many replays of each origin agreed,
// and how many calls by the answer that was expected.
#![tactic(auto)]

mod calls;
mod lines;
mod replays;
mod rows;
mod train;

use crate::lines::Run;
use input::read_full;
use std::io;

// The largest input, with a byte to spare.
const TEXT_ROOM: usize = 1048576;

const LONGEST_LINE: usize = 66000;

fn main(rt: HostRuntime) -> io::Result<()> {
    // No heap: rooms of a fixed size, cut to what is used.
    let mut text_space: [u8; 2097152] = vectors::filled(0);
    let text = vectors::front(&mut text_space, TEXT_ROOM);
    let n = read_full(&mut rt.reader(), text)?;
    if n == text.len() {
        return println!(rt; "input over 1048575");
    }
    let mut line_space: [u8; 70400] = vectors::filled(0);
    let line = vectors::front(&mut line_space, LONGEST_LINE);
    let mut pool: [u8; 1048576] = vectors::filled(0);
    let mut ends: [usize; 8191] = vectors::filled(0);
    let mut run = Run::new(&mut pool, &mut ends);
    vectors::replay(vectors::part(text, 0, n), line, &mut run);
    rows::print(&rt, run.tally)
}
