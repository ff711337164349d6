// One call: the record, the room and the frame that a line holds, and whether verdict, reply and record
// come out as it says.
ghost use Rattle.std.specs.Prelude.{◌≡◌};
ghost use Rattle.gateway_cases.specs.Calls.{Called, Judged, fields_of, is_call};

use crate::pieces;
use record::{Guest, Network, Refusal, Verdict};
use verdict_numbers::numbered;
use wire::bytes::{byte_at, bytes_at, u16be, u32be};

// A call on document 01's network with id and xid before it, one that goes on with the record that the
// last one left, and one with its network before id and xid. (As numbers: a line has its kind as a byte, and
// `is_call` and `fields_of` promise by it.)
const WITH_RECORD: u8 = 13;

const GOES_ON: u8 = 14;

const ON_NETWORK: u8 = 15;

// Where the fields stand that all kinds have, from the record after the call on.
const WHOSE_AT: usize = 12;

const ROOM_AT: usize = 13;

const VERDICT_AT: usize = 17;

const VALUE_AT: usize = 18;

const DATA_LENGTH_AT: usize = 22;

const FRAME_SIZE_AT: usize = 24;

const FRAME_AT: usize = 26;

// Verdicts, and whose they are, as lines have them.
const VERDICTS: u8 = 8;

const REPLY: u8 = 1;

const WHOSE: u8 = 4;

#[derive(Clone, Copy)]
pub struct Outcome {
    // None where the line does not name a verdict and whose answer it is: nothing is called then.
    pub named: Option<Named>,
    // The record that the call left.
    pub guest: Guest,
}

// What a line names, and whether the call agrees with it.
#[derive(Clone, Copy)]
pub struct Named {
    pub verdict: u8,
    pub whose: u8,
    pub agrees: bool,
}

// A call's answer, and whether it is the line's.
#[derive(Clone, Copy)]
struct Checked {
    agrees: bool,
    guest: Guest,
}

// `kind` is the line's, without the bit of a spoiled one.
pub fn is_call(kind: u8) -> bool
    ensures { result ≡ is_call kind }
{
    matches!(kind, WITH_RECORD | GOES_ON | ON_NETWORK)
}

pub fn called(line: &[u8], last: Guest) -> Outcome
    ensures { Called line.now result }
{
    let kind = byte_at(line, 0) % vectors::SPOILED;
    judged(fields_of(line, kind), record_before(line, kind, last))
}

fn fields_of(line: &[u8], kind: u8) -> &[u8]
    ensures { result.now ≡ fields_of kind line.now }
{
    match kind {
        GOES_ON => vectors::rest(line, 1),
        ON_NETWORK => vectors::rest(line, 23),
        _ => vectors::rest(line, 7),
    }
}

fn record_before(line: &[u8], kind: u8, last: Guest) -> Guest {
    match kind {
        GOES_ON => last,
        ON_NETWORK => known(vectors::rest(line, 17), network_at(line)),
        _ => known(vectors::rest(line, 1), vectors::network()),
    }
}

fn network_at(line: &[u8]) -> Network {
    Network {
        gateway: bytes_at(line, 1),
        guest: bytes_at(line, 5),
        mask: bytes_at(line, 9),
        lease: u32be(line, 13),
    }
}

// From id and xid on. It has the MAC of the record after the call, which stands behind them.
fn known(fields: &[u8], network: Network) -> Guest {
    Guest::of(
        bytes_at(fields, 6),
        u16be(fields, 0),
        u32be(fields, 2),
        network,
    )
}

fn judged(fields: &[u8], before: Guest) -> Outcome
    ensures { Judged fields.now result }
{
    let verdict = byte_at(fields, VERDICT_AT);
    let whose = byte_at(fields, WHOSE_AT);
    if VERDICTS <= verdict || WHOSE <= whose {
        return Outcome {
            named: None,
            guest: before,
        };
    }
    // A line that lacks the frame, or room for a call, agrees with no answer.
    let checked = call(fields, before).unwrap_or(Checked {
        agrees: false,
        guest: before,
    });
    Outcome {
        named: Some(Named {
            verdict,
            whose,
            agrees: checked.agrees,
        }),
        guest: checked.guest,
    }
}

// Lays out the frame. (A call of its own: as a part of its caller its rooms would be entered for each line,
// blank ones too.)
#[inline(never)]
fn call(fields: &[u8], before: Guest) -> Option<Checked> {
    let size = u16be(fields, FRAME_SIZE_AT) as usize;
    let pieces = fields.get(FRAME_AT..)?.get(..size)?;
    let mut space: [u8; 70400] = vectors::filled(0);
    let len = pieces::lay(pieces, b"", &mut space)?;
    call_with(fields, before, vectors::part(&space, 0, len))
}

fn call_with(fields: &[u8], before: Guest, frame: &[u8]) -> Option<Checked> {
    let room = u32be(fields, ROOM_AT) as usize;
    let mut space: [u8; 70400] = vectors::filled(vectors::MARK);
    let out = vectors::front(&mut space, room);
    if out.len() < room {
        return None;
    }
    let answer = slirp::handle(before, frame, out);
    Some(Checked {
        agrees: (answer.guest == record_after(fields, before.network))
            && is_answer(fields, answer.verdict, frame, out),
        guest: answer.guest,
    })
}

// On the network of the record before: no call changes it.
fn record_after(fields: &[u8], network: Network) -> Guest {
    Guest::of(
        bytes_at(fields, 0),
        u16be(fields, 6),
        u32be(fields, 8),
        network,
    )
}

// Lays out the reply that the line expects.
fn is_answer(fields: &[u8], verdict: Result<Verdict, Refusal>, frame: &[u8], out: &[u8]) -> bool {
    let size = u16be(fields, FRAME_SIZE_AT) as usize;
    let mut space: [u8; 70400] = vectors::filled(0);
    match pieces::lay(vectors::rest(fields, FRAME_AT + size), frame, &mut space) {
        Some(len) => {
            (len == reply_length(fields))
                && paper(verdict) == paper_at(fields)
                && holds(out, vectors::part(&space, 0, len))
        }
        None => false,
    }
}

// The buffer starts with the image, and has its marks behind it.
fn holds(out: &[u8], image: &[u8]) -> bool {
    (vectors::part(out, 0, image.len()) == image)
        && vectors::is_marked(vectors::rest(out, image.len()))
}

// Only a reply has bytes, and as many as it says.
fn reply_length(fields: &[u8]) -> usize {
    if byte_at(fields, VERDICT_AT) == REPLY {
        return u32be(fields, VALUE_AT) as usize;
    }
    0
}

// An answer as document 01 writes it: its number, the value with it, and the length of data.
fn paper(verdict: Result<Verdict, Refusal>) -> (u32, usize, usize) {
    let mut values = [0; 2];
    let number = numbered(verdict, &mut values);
    (number, values[0], values[1])
}

fn paper_at(fields: &[u8]) -> (u32, usize, usize) {
    (
        u32::from(byte_at(fields, VERDICT_AT)),
        u32be(fields, VALUE_AT) as usize,
        u16be(fields, DATA_LENGTH_AT) as usize,
    )
}
