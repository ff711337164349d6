// A line of text as bytes: two hexadecimal digits to a byte. Spaces count for nothing, and `#` starts
// a comment.
ghost use Rattle.std.specs.Prelude.{◌≡◌, ◌+◌, ◌≤◌, ◌<◌, min, length, IfSome};
ghost use Rattle.std.specs.Option.{unwrap_or};
ghost use Rattle.vectors.specs.Lines.{Decoded, ReadInto, digit, index_of};

use crate::slices::rest;

#[derive(Clone, Copy)]
pub struct Line {
    // How many bytes stand at the start of the line's buffer; None where the line is not whole: it has
    // another character, half a byte, or more than the buffer holds.
    pub len: Option<usize>,
    // Where the next line starts.
    pub next: usize,
}

// A line's first byte is its kind. With this bit set the line is spoiled: it is right to find it wrong.
pub const SPOILED: u8 = 0x80;

// Reads the line that starts at `at` into `line`; past the text's end that is an empty one.
pub fn decode(text: &[u8], at: usize, line: &mut [u8]) -> Line
    ensures { Decoded text.now at (length line.old) line.new result }
{
    if text.len() <= at {
        return Line {
            len: Some(0),
            next: text.len(),
        };
    }
    let left = rest(text, at);
    let end = find(left, b'\n');
    let stop = find(&left[..end], b'#');
    Line {
        len: read_bytes(&left[..stop], line),
        next: behind(at + end, text.len()),
    }
}

// Where the first such byte stands, or the length where there is none.
pub fn find(s: &[u8], byte: u8) -> usize
    ensures place { result ≡ index_of byte s.now }
    ensures within { result ≤ length s.now }
{
    s.iter().position(|b| *b == byte).unwrap_or(s.len())
}

fn behind(end: usize, len: usize) -> usize
    ensures { result ≡ min (end + 1) len }
{
    end.saturating_add(1).min(len)
}

// `high` is a byte's first digit, where one waits for its second. (Room is asked for with the second: asked for
// with each, it cost a long line a fifth of its time, and a first digit without room makes no byte either way.)
fn read_bytes(signs: &[u8], line: &mut [u8]) -> Option<usize>
    ensures { ReadInto (length line.old) signs.now line.new result }
{
    let mut len = 0;
    let mut high: Option<u8> = None;
    for sign in signs {
        if *sign == b' ' {
            continue;
        }
        let low = digit_of(*sign)?;
        high = match high {
            Some(first) => {
                if line.len() <= len {
                    return None;
                }
                line[len] = first * 16 + low;
                len += 1;
                None
            }
            None => Some(low),
        };
    }
    match high {
        None => Some(len),
        Some(_) => None,
    }
}

#[tactic(auto, unfolding(crate::specs::Lines::digit))]
fn digit_of(sign: u8) -> Option<u8>
    ensures value { unwrap_or result 16 ≡ digit sign }
    ensures upper_bound { IfSome result (λ d. d < 16) }
{
    match sign {
        b'0'..=b'9' => Some(sign - b'0'),
        b'a'..=b'f' => Some(sign - b'a' + 10),
        _ => None,
    }
}
