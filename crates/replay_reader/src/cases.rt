// One line: KIND ORIGIN LAYERS TYPE ZEROS FRAME. KIND and ORIGIN are a byte each; LAYERS and TYPE are
// the rest of what is expected (expected.rt). The frame is the bytes of FRAME, which end the line, and
// behind them as many zeros as ZEROS says in four bytes.
ghost use Rattle.std.specs.Prelude.{◌≤◌};

use crate::expected;
use vectors::SPOILED;
use wire::bytes::{byte_at, u32be};

// What comes of a line.
#[derive(Clone, Copy)]
pub enum Case {
    // A blank line or a comment.
    Blank,
    // No line of the form, or too long a frame.
    Unread,
    // Whether a line spoiled on purpose was found wrong.
    Spoiled(bool),
    // The origin and the kind as the line has them, each the number of a row.
    Compared { origin: u8, kind: u8, agrees: bool },
}

const ORIGINS: u8 = 7;

const LONGEST_FRAME: usize = 66000;

pub fn judge(line: Option<&[u8]>) -> Case {
    match line {
        None => Case::Unread,
        Some(line) => {
            if line.len() == 0 {
                return Case::Blank;
            }
            compared(line).unwrap_or(Case::Unread)
        }
    }
}

// None where the line is not of the form.
fn compared(line: &[u8]) -> Option<Case> {
    let origin = byte_at(line, 1);
    if origin == 0 || ORIGINS < origin {
        return None;
    }
    let kind = byte_at(line, 0) % SPOILED;
    if expected::KINDS <= kind {
        return None;
    }
    let end = expected::end(kind);
    if line.len() < end + 4 {
        return None;
    }
    compare(line, kind, end)
}

// What is expected ends at `end`. (A call of its own: as a part of `take` its room would be entered for each
// line, blank ones too.)
#[inline(never)]
fn compare(line: &[u8], kind: u8, end: usize) -> Option<Case>
    requires { end ≤ 51 }
{
    let written = vectors::rest(line, end + 4);
    let len = written.len() + (u32be(line, end) as usize);
    if LONGEST_FRAME < len {
        return None;
    }
    let mut space: [u8; 70400] = vectors::filled(0);
    let frame = vectors::front(&mut space, len);
    base::put(frame, 0, written);
    Some(outcome(line, reader::read(frame) == expected::reading(line, kind)))
}

fn outcome(line: &[u8], agrees: bool) -> Case {
    let kind = byte_at(line, 0);
    if SPOILED <= kind {
        return Case::Spoiled(!agrees);
    }
    Case::Compared {
        origin: byte_at(line, 1),
        kind,
        agrees,
    }
}
