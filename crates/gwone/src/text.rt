// Text in a fixed buffer: each piece is added at the end, where the caller shows that there is room.
ghost use Rattle.std.specs.Prelude.{◌≡◌, ℕ, List, [], ◌∷◌, ◌++◌, ◌+◌, ◌*◌, ◌≤◌, ◌<◌, take, drop, length};
ghost use Rattle.gwone.specs.Text.{ascii, decimal, glyph as glyph_of, hex};
ghost use Rattle.gwone.specs.declared.text.TheConstants.{ROOM};

use std::marker::Model;

// For a line of 64 bytes, and one of 2,048 bytes in hex.
const ROOM: usize = 4224;

#[derive(Drop)]
pub struct Text {
    bytes: [u8; ROOM],
    len: usize,
}

// Clauses see the bytes that were written.
impl Model for Text {
    ghost Value = { List ℕ };

    ghost view = { λ t. take t.len t.bytes };

    ghost invariant = { λ t. t.len ≤ ROOM };
}

impl Text {
    pub fn new() -> Self
        ensures { result ≡ [] }
    {
        Text {
            bytes: [0; ROOM],
            len: 0,
        }
    }

    pub fn clear(&mut self)
        ensures { self.new ≡ [] }
    {
        self.len = 0;
    }

    pub fn as_bytes(&self) -> &[u8]
        ensures { result.now ≡ self.now }
    {
        &self.bytes[..self.len]
    }

    pub fn push(&mut self, piece: &[u8])
        requires { length self.old + length piece.now ≤ ROOM }
        ensures { self.new ≡ self.old ++ piece.now }
    {
        base::put(&mut self.bytes, self.len, piece);
        self.len += piece.len();
    }

    // A space and the number in decimal.
    pub fn push_number(&mut self, number: usize)
        requires { length self.old + 21 ≤ ROOM }
        ensures number { self.new ≡ self.old ++ ascii " " ++ decimal number }
        ensures upper_bound { length self.new ≤ length self.old + 21 }
    {
        let mut digits = [0u8; 20];
        let start = lay_decimal(number as u64, &mut digits);
        self.push(b" ");
        self.push(&digits[start..]);
    }

    // Two digits for each byte.
    pub fn push_hex(&mut self, bytes: &[u8])
        requires { length self.old + 2 * length bytes.now ≤ ROOM }
        ensures { self.new ≡ self.old ++ hex bytes.now }
    {
        for byte in bytes {
            self.push(&[glyph(*byte / 16), glyph(*byte % 16)]);
        }
    }
}

// The number in decimal, at the end of `digits`, and where it starts there. (The digits come from the last
// one on, as many as the number has: a `for` would have to know how many before.)
fn lay_decimal(number: u64, digits: &mut [u8; 20]) -> usize
    ensures digits { drop result digits.new ≡ decimal number }
    ensures start { result < 20 }
{
    let mut start = 20;
    let mut rest = number;
    while rest > 9 {
        start -= 1;
        digits[start] = glyph((rest % 10) as u8);
        rest /= 10;
    }
    start -= 1;
    digits[start] = glyph(rest as u8);
    start
}

// The ASCII code of a digit.
fn glyph(digit: u8) -> u8
    requires { digit < 16 }
    ensures { result ≡ glyph_of digit }
{
    if digit < 10 {
        b'0' + digit
    } else {
        b'a' - 10 + digit
    }
}
