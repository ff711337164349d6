// One record to be made: what the call is asked, and whether answer and record come out as a line says.
ghost use Rattle.std.specs.Prelude.{◌≡◌, IfSome, eqb, get_or};

use making::BadRecord;
use record::{Guest, Network};
use wire::bytes::{byte_at, bytes_at, u32be};

// The kind of such a line, without the bit of a spoiled one.
pub const MAKING: u8 = 16;

const LINE_LENGTH: usize = 29;

const MAC_AT: usize = 1;

const GATEWAY_AT: usize = 7;

const GUEST_AT: usize = 11;

const MASK_AT: usize = 15;

const LEASE_NAMED_AT: usize = 19;

const LEASE_AT: usize = 20;

const ANSWER_AT: usize = 24;

const LEASE_OF_RECORD_AT: usize = 25;

// The answers, as lines have them.
const MADE: u8 = 24;

const BAD_RECORD: u8 = 9;

#[derive(Clone, Copy)]
pub struct MakingOutcome {
    pub agrees: bool,
    // Whether the line says that a record is made.
    pub made: bool,
}

// None where the line has not its length or names no answer: nothing is called then.
pub fn made(line: &[u8]) -> Option<MakingOutcome>
    ensures { IfSome result (λ outcome. outcome.made ≡ eqb (get_or line.now 24 0) 24) }
{
    let answer = byte_at(line, ANSWER_AT);
    let made = answer == MADE;
    if line.len() != LINE_LENGTH || (!made && answer != BAD_RECORD) {
        return None;
    }
    Some(MakingOutcome {
        agrees: makes(line),
        made,
    })
}

fn makes(line: &[u8]) -> bool {
    let number = byte_at(line, ANSWER_AT);
    match making::make(
        bytes_at(line, MAC_AT),
        bytes_at(line, GATEWAY_AT),
        bytes_at(line, GUEST_AT),
        bytes_at(line, MASK_AT),
        lease(line),
    ) {
        Ok(guest) => number == MADE && guest == new_record(line),
        // There is no record then, and the line says 0 of its lease.
        Err(BadRecord) => number == BAD_RECORD && u32be(line, LEASE_OF_RECORD_AT) == 0,
    }
}

fn lease(line: &[u8]) -> Option<u32> {
    (byte_at(line, LEASE_NAMED_AT) != 0).then_some(u32be(line, LEASE_AT))
}

fn new_record(line: &[u8]) -> Guest {
    let network = Network {
        gateway: bytes_at(line, GATEWAY_AT),
        guest: bytes_at(line, GUEST_AT),
        mask: bytes_at(line, MASK_AT),
        lease: u32be(line, LEASE_OF_RECORD_AT),
    };
    Guest::of(bytes_at(line, MAC_AT), 1, 0, network)
}
