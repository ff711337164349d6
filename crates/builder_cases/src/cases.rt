// One line: the call that its kind names, and whether its answer is the line's.
ghost use Rattle.std.specs.Prelude.{◌≡◌, ◌≢◌, IfSome, slice_index};
ghost use Rattle.std.specs.Option.{unwrap_or};
ghost use Rattle.builder_cases.specs.Kinds.{Judged, kind_of};

use crate::{builders, checksums, messages, whole_frames};
use wire::bytes::byte_at;

#[derive(Clone, Copy)]
pub struct Case {
    // The line's kind without the bit of a spoiled line.
    pub kind: u8,
    // Whether the call answers as the line says.
    pub agrees: bool,
}

// The kinds. (As numbers: a line has its kind as a byte, and what counts the cases has a row at that number,
// so that an enum would need a conversion to each.)
const CHECKSUM: u8 = 1;

const TWO_PIECES: u8 = 2;

const IP_FRAME: u8 = 3;

const UDP_PAYLOAD: u8 = 5;

const TCP_FRAME: u8 = 6;

const CHECKSUM_BY_RULE: u8 = 7;

const WHOLE_FRAME: u8 = 8;

const OPTION_WALK: u8 = 9;

const CUT_EVERYWHERE: u8 = 10;

const DHCP_REPLY: u8 = 11;

const REPLY_TYPES: u8 = 12;

// None where no call has the line's kind.
pub fn judge(line: &[u8]) -> Option<Case>
    ensures { Judged (slice_index line.now 0) result }
{
    let kind = kind_of(byte_at(line, 0))?;
    Some(Case {
        kind,
        agrees: agrees(line, kind),
    })
}

#[tactic(auto, unfolding(crate::specs::Kinds::kind_of))]
fn kind_of(first: u8) -> Option<u8>
    ensures value { unwrap_or result 0 ≡ kind_of first }
    ensures named { IfSome result (λ kind. kind ≢ 0) }
{
    let kind = first % vectors::SPOILED;
    match kind {
        CHECKSUM..=IP_FRAME | UDP_PAYLOAD..=REPLY_TYPES => Some(kind),
        _ => None,
    }
}

// (A closure for each kind would be picked by the same match.)
fn agrees(line: &[u8], kind: u8) -> bool {
    match kind {
        CHECKSUM => checksums::of_one_piece(line),
        TWO_PIECES => checksums::of_two_pieces(line),
        IP_FRAME => builders::builds_ip_frame(line),
        UDP_PAYLOAD => builders::builds_udp_payload(line),
        TCP_FRAME => builders::builds_tcp_frame(line),
        CHECKSUM_BY_RULE => checksums::of_bytes_by_rule(line),
        WHOLE_FRAME => whole_frames::sums_right(vectors::rest(line, 1)),
        OPTION_WALK => messages::walks(line),
        CUT_EVERYWHERE => messages::cut_everywhere(line),
        DHCP_REPLY => messages::builds_reply(line),
        _ => messages::reply_types(line),
    }
}
