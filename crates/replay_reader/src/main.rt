// Compares what the strict reader reports with stored vectors, one to a line of standard input
// (cases.rt has the form). It prints how many of each origin and of each kind ran and agreed.
#![tactic(auto)]

mod cases;
mod expected;
mod rows;

use input::read_full;
use std::io;
use vectors::{Judge, Tally};

// A frame of 66,000 bytes, and 55 bytes for what a line says of it.
const LONGEST_LINE: usize = 66055;

fn main(rt: HostRuntime) -> io::Result<()> {
    // No heap: rooms of a fixed size, cut to what is used.
    let mut text: [u8; 2097152] = vectors::filled(0);
    let n = read_full(&mut rt.reader(), &mut text)?;
    if n == text.len() {
        return println!(rt; "input over 2097151");
    }
    let mut space: [u8; 70400] = vectors::filled(0);
    let line = vectors::front(&mut space, LONGEST_LINE);
    let mut run = Run {
        tally: Tally::new(),
    };
    vectors::replay(vectors::part(&text, 0, n), line, &mut run);
    rows::print(&rt, run.tally)
}

#[derive(Drop)]
struct Run {
    tally: Tally,
}

impl Judge for Run {
    fn take(&mut self, line: Option<&[u8]>) {
        rows::count(&mut self.tally, cases::judge(line));
    }
}
