// DHCP lines: the walk over a message's options, the types of replies, and the reply.
use crate::answers;
use options::CutAt;
use record::Verdict;
use wire::bytes::{byte_at, bytes_at, u16be, u32be};

// As lines have it for a type that is cut off.
const CUT: u8 = 7;

// A line's message is made by rule up to a place, and written out behind it.
const WRITTEN_AT: usize = 11;

// (A call of its own: as a part of its caller its room would be entered for each line of any kind.)
#[inline(never)]
pub fn walks(line: &[u8]) -> bool {
    if line.len() < WRITTEN_AT {
        return false;
    }
    let written = vectors::rest(line, WRITTEN_AT);
    let ruled = u32be(line, 7) as usize;
    let len = ruled + written.len();
    let mut space: [u8; 70400] = vectors::filled(0);
    let message = vectors::front(&mut space, len);
    if message.len() < len {
        return false;
    }
    vectors::lay_payload(b"", byte_at(line, 6), message);
    base::put(message, ruled, written);
    is_found(
        options::message_type(message),
        byte_at(line, 1),
        u32be(line, 2) as usize,
    )
}

// A line has 0 for a message without a type.
fn is_found(found: Result<Option<u8>, CutAt>, number: u8, value: usize) -> bool {
    match found {
        Ok(kind) => number == 0 && usize::from(kind.unwrap_or(0)) == value,
        Err(CutAt(place)) => number == CUT && place == value,
    }
}

// A message and, for each place where it can be cut, what is found in its bytes before that place.
pub fn cut_everywhere(line: &[u8]) -> bool {
    let len = u16be(line, 1);
    if line.len() != 6 + 4 * (len as usize) {
        return false;
    }
    for end in 0..=len {
        if !is_found_before(line, len, end) {
            return false;
        }
    }
    true
}

fn is_found_before(line: &[u8], len: u16, end: u16) -> bool {
    let answer_at = 3 + (len as usize) + 3 * (end as usize);
    is_found(
        options::message_type(vectors::part(line, 3, end as usize)),
        byte_at(line, answer_at),
        u16be(line, answer_at + 1) as usize,
    )
}

// For each message type the type of the reply to it, 0 where there is none.
pub fn reply_types(line: &[u8]) -> bool {
    if line.len() != 257 {
        return false;
    }
    for kind in 0..=255u8 {
        if dhcp_message::reply_type(kind).unwrap_or(0) != byte_at(line, 1 + (kind as usize)) {
            return false;
        }
    }
    true
}

// (A call of its own, as `walks`.)
#[inline(never)]
pub fn builds_reply(line: &[u8]) -> bool {
    let room = u32be(line, 12) as usize;
    let mut space: [u8; 70400] = vectors::filled(vectors::MARK);
    let out = vectors::front(&mut space, room);
    if out.len() < room {
        return false;
    }
    let built = dhcp_message::build_reply(
        vectors::network(),
        bytes_at(line, 5),
        u32be(line, 1),
        byte_at(line, 11),
        out,
    );
    answers::is_expected(
        byte_at(line, 16),
        u32be(line, 17) as usize,
        vectors::rest(line, 21),
        b"",
        built.map(Verdict::Reply),
        out,
    )
}
