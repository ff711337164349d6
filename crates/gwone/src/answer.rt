// The gateway's answer to one frame, as text: a line with a word and numbers, and for a reply a
// second with its bytes.
ghost use Rattle.std.specs.Prelude.{◌≡◌, ◌≤◌, [], ◌∷◌, ◌++◌, length, take};
ghost use Rattle.record.specs.Answer.{paper};
ghost use Rattle.record.specs.Guest.{fresh};
ghost use Rattle.record.specs.Network.{document01};
ghost use Rattle.gwone.specs.Text.{ascii, hex};
ghost use Rattle.gwone.specs.Printed.{spaced, answer_text, guest_mac_lem, printed};

use crate::text::Text;
use making::make;
use record::{Guest, Refusal, Verdict};

const GUEST_MAC: [u8; 6] = [0x52, 0x54, 0x00, 0x12, 0x34, 0x56];

// Document 01's network; its lease is named, whatever a record gets that names none.
const GATEWAY: [u8; 4] = [10, 0, 2, 2];

const GUEST: [u8; 4] = [10, 0, 2, 15];

const MASK: [u8; 4] = [255, 255, 255, 0];

const LEASE: u32 = 86400;

const FRAME_LIMIT: usize = 2048;

// Document 01's numbers of the refusals. (As numbers: they are printed, and `printed` in specs/ has them so.)
const NO_ROOM: usize = 5;

const TOO_LONG: usize = 6;

const CUT_TYPE: usize = 7;

fn new_guest() -> Guest
    ensures { result ≡ fresh guest_mac_lem document01 }
{
    make(GUEST_MAC, GATEWAY, GUEST, MASK, Some(LEASE)).unwrap()
}

// All that is printed for `input`, in a text that is lent. (As each call's own result it was kept six times over,
// and took four times the stack.)
pub fn printed(input: &[u8], text: &mut Text)
    ensures { text.new ≡ printed input.now }
{
    text.clear();
    if FRAME_LIMIT < input.len() {
        return line(b"input over 2048", &[], text);
    }
    let mut reply = [0; 2048];
    let answer = slirp::handle(new_guest(), input, &mut reply);
    answered(answer.verdict, &reply, text);
}

// The word of the verdict and its numbers; a reply stands at the front of `buffer`. (By `Text` and not by
// `Display`: what is printed is promised byte by byte.)
#[tactic(auto, unfolding(record::specs::Answer::paper, crate::specs::Printed::line, crate::specs::Printed::answer_text))]
fn answered(verdict: Result<Verdict, Refusal>, buffer: &[u8], text: &mut Text)
    requires buffer_len_bound { length buffer.now ≤ 2048 }
    requires empty { text.old ≡ [] }
    ensures { text.new ≡ answer_text (paper verdict) buffer.now }
{
    match verdict {
        Ok(Verdict::Drop) => line(b"drop", &[], text),
        Ok(Verdict::Reply(n)) => reply(n, front(buffer, n), text),
        Ok(Verdict::Dns { start, len }) => line(b"dns", &[start, len], text),
        Ok(Verdict::Relay { start, len }) => line(b"relay", &[start, len], text),
        Ok(Verdict::Tcp(len)) => line(b"tcp", &[len], text),
        Err(Refusal::NoRoom(needed)) => line(b"refused", &[NO_ROOM, needed], text),
        Err(Refusal::TooLong(len)) => line(b"refused", &[TOO_LONG, len], text),
        Err(Refusal::CutType(place)) => line(b"refused", &[CUT_TYPE, place], text),
    }
}

// A line of a word, or a few, and at most two numbers.
fn line(word: &[u8], numbers: &[usize], text: &mut Text)
    requires word_len_bound { length word.now ≤ 15 }
    requires numbers_len_bound { length numbers.now ≤ 2 }
    requires empty { text.old ≡ [] }
    ensures line { text.new ≡ word.now ++ spaced numbers.now ++ ascii "\n" }
    ensures upper_bound { length text.new ≤ 64 }
{
    text.push(word);
    for number in numbers {
        text.push_number(*number);
    }
    text.push(b"\n");
}

// The line of a reply and one of its bytes in hex.
fn reply(n: usize, bytes: &[u8], text: &mut Text)
    requires bytes_len_bound { length bytes.now ≤ 2048 }
    requires empty { text.old ≡ [] }
    ensures { text.new ≡ ascii "reply" ++ spaced (n ∷ []) ++ ascii "\n" ++ hex bytes.now ++ ascii "\n" }
{
    line(b"reply", &[n], text);
    text.push_hex(bytes);
    text.push(b"\n");
}

// The first `n` bytes, or all where there are fewer.
fn front(bytes: &[u8], n: usize) -> &[u8]
    ensures { result.now ≡ take n bytes.now }
{
    &bytes[..n.min(bytes.len())]
}
