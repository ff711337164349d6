// Replays stored vectors: calls of `sums`, `frames`, `tcp`, `options`, `dhcp_reply`, `slirp` and `making`
// with the answers that others gave, one to a line of standard input (oracle/README.md has the form). It
// prints how many of each kind ran and agreed.
#![tactic(auto)]

mod rows;

use gateway_cases::Named;
use input::read_full;
use record::Guest;
use std::io;
use vectors::{Judge, SPOILED, Tally};
use wire::bytes::byte_at;

// The largest input, with a byte to spare.
const TEXT_ROOM: usize = 1835008;

const LONGEST_LINE: usize = 4096;

fn main(rt: HostRuntime) -> io::Result<()> {
    // No heap: rooms of a fixed size, cut to what is used.
    let mut space: [u8; 2097152] = vectors::filled(0);
    let text = vectors::front(&mut space, TEXT_ROOM);
    let n = read_full(&mut rt.reader(), text)?;
    if n == text.len() {
        return println!(rt; "input over 1835007");
    }
    let mut line = [0u8; LONGEST_LINE];
    let mut run = Run {
        tally: Tally::new(),
        guest: Guest::of([0, 0, 0, 0, 0, 0], 1, 0, vectors::network()),
    };
    vectors::replay(vectors::part(text, 0, n), &mut line, &mut run);
    rows::print(&rt, run.tally)
}

// The count so far, and the record that the last gateway call left.
#[derive(Drop)]
struct Run {
    tally: Tally,
    guest: Guest,
}

impl Judge for Run {
    // A blank line or a comment is no case.
    fn take(&mut self, line: Option<&[u8]>) {
        match line {
            Some(line) => {
                if line.len() > 0 {
                    self.judge(
                        line,
                        byte_at(line, 0) % SPOILED,
                        SPOILED <= byte_at(line, 0),
                    );
                }
            }
            None => self.count(rows::UNREAD, false),
        }
    }
}

impl Run {
    fn count(&mut self, row: usize, agrees: bool) {
        self.tally = self.tally.counted(row, agrees);
    }

    // A spoiled line agrees where it is found wrong.
    fn count_line(&mut self, spoiled: bool, row: usize, agrees: bool) {
        if spoiled {
            self.count(rows::SPOILED, !agrees);
        } else {
            self.count(row, agrees);
        }
    }

    fn judge(&mut self, line: &[u8], kind: u8, spoiled: bool) {
        if gateway_cases::is_call(kind) {
            self.judge_call(line, spoiled);
        } else if kind == gateway_cases::MAKING {
            self.judge_making(line, spoiled);
        } else {
            self.judge_builder(line, spoiled);
        }
    }

    // A spoiled call leaves the record as it was.
    fn judge_call(&mut self, line: &[u8], spoiled: bool) {
        let outcome = gateway_cases::called(line, self.guest);
        if spoiled {
            let agrees = outcome.named.is_some_and(|named| named.agrees);
            return self.count(rows::SPOILED, !agrees);
        }
        self.guest = outcome.guest;
        match outcome.named {
            Some(named) => self.count_call(named),
            // It lacks a verdict, and it lacks whose it is.
            None => {
                self.count(rows::UNREAD, false);
                self.count(rows::UNREAD, false);
            }
        }
    }

    // A call on another network is counted once more.
    fn count_call(&mut self, named: Named) {
        self.count(rows::VERDICTS + usize::from(named.verdict), named.agrees);
        self.count(rows::WHOSE + usize::from(named.whose), named.agrees);
        if self.guest.network != vectors::network() {
            self.count(rows::ELSEWHERE, named.agrees);
        }
    }

    fn judge_making(&mut self, line: &[u8], spoiled: bool) {
        match gateway_cases::made(line) {
            Some(outcome) => {
                self.count_line(spoiled, rows::of_making(outcome.made), outcome.agrees);
            }
            None => self.count_line(spoiled, rows::UNREAD, false),
        }
    }

    fn judge_builder(&mut self, line: &[u8], spoiled: bool) {
        match builder_cases::judge(line) {
            Some(case) => self.count_line(spoiled, case.kind as usize, case.agrees),
            None => self.count(rows::UNREAD, false),
        }
    }
}
