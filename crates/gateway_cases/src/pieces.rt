// A long string of bytes as a line holds it, in pieces one behind the other: bytes written out, zeros,
// bytes by rule, a part of the frame, and the MACs that most frames start with.
ghost use Rattle.std.specs.Prelude.{◌≤◌, ◌<◌, IfSome, length};

use vectors::rest;
use wire::bytes::{byte_at, u16be, u32be};

// The kinds of pieces, each as its first byte.
const WRITTEN: u8 = 1;

const ZEROS: u8 = 2;

const BY_RULE: u8 = 3;

const OF_FRAME: u8 = 4;

const USUAL_MACS: u8 = 5;

const MACS: [u8; 12] = [
    0x52, 0x54, 0x00, 0x00, 0x00, 0x01, 0x52, 0x54, 0x00, 0x12, 0x34, 0x56,
];

// What a piece stands for.
#[derive(Clone, Copy)]
enum Piece<'a> {
    Bytes(&'a [u8]),
    // As many bytes by the rule of a seed; zeros have the seed 0.
    ByRule { len: usize, seed: u8 },
}

// Lays the pieces into `out`, one behind the other from its start on, and says how many bytes they are. None
// where a piece is not there whole, names what is not there, or has no room. (How far a turn goes is told by
// the piece: a `for` would be no plainer.)
pub fn lay(pieces: &[u8], frame: &[u8], out: &mut [u8]) -> Option<usize> {
    let mut len = 0;
    let mut left = pieces;
    while left.len() > 0 {
        let (size, piece) = first(left, frame)?;
        if left.len() < size {
            return None;
        }
        len += lay_piece(piece, &mut out[len..])?;
        left = &left[size..];
    }
    Some(len)
}

// The first piece, and how many bytes it takes in the line.
fn first<'a>(pieces: &'a [u8], frame: &'a [u8]) -> Option<(usize, Piece<'a>)>
    ensures { IfSome result (λ it. 0 < it.0) }
{
    match byte_at(pieces, 0) {
        WRITTEN => {
            let len = byte_at(pieces, 1) as usize;
            Some((2 + len, Piece::Bytes(rest(pieces, 2).get(..len)?)))
        }
        ZEROS => {
            let len = u16be(pieces, 1) as usize;
            Some((3, Piece::ByRule { len, seed: 0 }))
        }
        BY_RULE => {
            let len = u32be(pieces, 2) as usize;
            match byte_at(pieces, 1) {
                0 => None,
                seed => Some((6, Piece::ByRule { len, seed })),
            }
        }
        OF_FRAME => {
            let len = u32be(pieces, 5) as usize;
            let at = u32be(pieces, 1) as usize;
            Some((9, Piece::Bytes(rest(frame, at).get(..len)?)))
        }
        USUAL_MACS => Some((1, Piece::Bytes(&MACS))),
        _ => None,
    }
}

// Lays it at the start of `out`, and says how many bytes it is. None where it has no room.
fn lay_piece(piece: Piece, out: &mut [u8]) -> Option<usize>
    ensures { IfSome result (λ len. len ≤ length out.old) }
{
    let len = match piece {
        Piece::Bytes(bytes) => bytes.len(),
        Piece::ByRule { len, .. } => len,
    };
    if out.len() < len {
        return None;
    }
    match piece {
        Piece::Bytes(bytes) => out[..len].copy_from_slice(bytes),
        Piece::ByRule { seed, .. } => vectors::lay_payload(b"", seed, &mut out[..len]),
    }
    Some(len)
}
