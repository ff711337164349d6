// A train's frames and payloads. A line has the bytes of one as pieces: 00 LENGTH(2) BYTES, or
// 01 LENGTH(2) FIRST STEP BEND, which is a run of bytes, each the one before it and a step that starts as
// STEP and grows by BEND.
ghost use Rattle.std.specs.Prelude.{◌≤◌, IfSome};

use wire::bytes::{byte_at, u16be};

// The items lie one behind the other in the pool, each up to its end. What is lent is fixed memory, so how
// many there are stands beside it.
#[derive(Drop)]
pub struct Train<'a> {
    pool: &'a mut [u8],
    ends: &'a mut [usize],
    count: usize,
}

// What a piece is, as its first byte.
const PLAIN: u8 = 0;

const RUN: u8 = 1;

const RUN_SIZE: usize = 6;

const HEAD_SIZE: usize = 3;

impl<'a> Train<'a> {
    pub fn new(pool: &'a mut [u8], ends: &'a mut [usize]) -> Train<'a> {
        Train {
            pool,
            ends,
            count: 0,
        }
    }

    // What was listed is forgotten.
    pub fn clear(&mut self) {
        self.count = 0;
    }

    // The item of this number.
    pub fn item(&self, number: usize) -> Option<&[u8]> {
        if self.count <= number {
            return None;
        }
        let start = self.end_of_first(number);
        let end = self.end_of_first(number + 1);
        self.pool.get(start..end)
    }

    // Where the first `count` items end.
    fn end_of_first(&self, count: usize) -> usize {
        if count == 0 {
            return 0;
        }
        self.ends.get(count - 1).copied().unwrap_or(0)
    }

    // One more item, whose pieces stand in `line` behind its first byte. None where it can't be read or
    // there is no room.
    pub fn add(&mut self, line: &[u8]) -> Option<()> {
        if self.ends.len() <= self.count {
            return None;
        }
        let count = self.count;
        let start = self.end_of_first(count);
        let end = lay(line, self.pool, start)?;
        self.ends[count] = end;
        self.count = count + 1;
        Some(())
    }
}

// Where the pieces end that are laid from `start` on.
fn lay(line: &[u8], pool: &mut [u8], start: usize) -> Option<usize> {
    let mut end = start;
    let mut pieces = vectors::rest(line, 1);
    while let Some(kind) = pieces.first() {
        let size = piece_size(*kind, pieces)?;
        let (piece, others) = pieces.split_at_checked(size)?;
        let room = pool.get_mut(end..)?.get_mut(..length_of(piece))?;
        lay_piece(piece, room);
        end += room.len();
        pieces = others;
    }
    Some(end)
}

// How many bytes the first of the pieces takes.
fn piece_size(kind: u8, pieces: &[u8]) -> Option<usize>
    ensures { IfSome result (λ size. 1 ≤ size) }
{
    match kind {
        PLAIN => Some(HEAD_SIZE + length_of(pieces)),
        RUN => Some(RUN_SIZE),
        _ => None,
    }
}

// How many bytes a piece stands for.
fn length_of(piece: &[u8]) -> usize
    ensures { result ≤ 65535 }
{
    usize::from(u16be(piece, 1))
}

fn lay_piece(piece: &[u8], room: &mut [u8]) {
    if byte_at(piece, 0) == RUN {
        lay_run(
            byte_at(piece, 3),
            byte_at(piece, 4),
            byte_at(piece, 5),
            room,
        );
    } else {
        base::put(room, 0, vectors::rest(piece, HEAD_SIZE));
    }
}

fn lay_run(first: u8, step: u8, bend: u8, room: &mut [u8]) {
    let mut value = first;
    let mut grown = step;
    for byte in room {
        *byte = value;
        value = value.wrapping_add(grown);
        grown = grown.wrapping_add(bend);
    }
}
