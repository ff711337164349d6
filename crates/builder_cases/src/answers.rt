// What a line expects of a builder, and whether an answer is that.
ghost use Rattle.std.specs.Prelude.{◌≤◌};

use record::{Refusal, Verdict};
use vectors::{part, rest};
use wire::bytes::{byte_at, u32be};

// The end of a builder's line: room, answer, the bytes before the payload, and the payload.
#[derive(Clone, Copy)]
pub struct Expected<'a> {
    pub room: usize,
    pub number: u8,
    pub value: usize,
    pub seed: u8,
    pub len: usize,
    pub head: &'a [u8],
    // What the line writes out of the payload.
    pub written: &'a [u8],
}

impl<'a> Expected<'a> {
    pub fn read(line: &'a [u8], at: usize) -> Expected<'a>
        requires { at ≤ 64 }
    {
        let head_len = byte_at(line, at + 14) as usize;
        Expected {
            room: u32be(line, at) as usize,
            number: byte_at(line, at + 4),
            value: u32be(line, at + 5) as usize,
            seed: byte_at(line, at + 9),
            len: u32be(line, at + 10) as usize,
            head: part(line, at + 15, head_len),
            written: rest(line, at + 15 + head_len),
        }
    }
}

// The verdict has the number and the value, and the buffer holds what belongs to them: the head and
// the payload where a frame was built, and its marks everywhere else. (A line has the verdict as a number.)
pub fn is_expected(
    number: u8,
    value: usize,
    head: &[u8],
    payload: &[u8],
    verdict: Result<Verdict, Refusal>,
    out: &[u8],
) -> bool {
    match verdict {
        Ok(Verdict::Reply(n)) => number == 1 && n == value && is_frame(head, payload, n, out),
        Err(Refusal::NoRoom(needed)) => number == 5 && needed == value && vectors::is_marked(out),
        Err(Refusal::TooLong(len)) => number == 6 && len == value && vectors::is_marked(out),
        _ => false,
    }
}

fn is_frame(head: &[u8], payload: &[u8], n: usize, out: &[u8]) -> bool {
    let start = head.len();
    if n < start || out.len() < n {
        return false;
    }
    (part(out, 0, start) == head)
        && part(out, start, n - start) == payload
        && vectors::is_marked(&out[n..])
}
