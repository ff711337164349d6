// The rows of the tally: one for each kind of line; no line has the kinds 0 and 4. Behind them one for
// each verdict of a gateway call, one for records made and one for those refused, then one for each way
// in which a gateway call's answer is the Rust's or document 01's, and one for those on other networks.
use std::io;
use vectors::Tally;

// Up to here each case is in one row: the rows behind count gateway calls once more.
const ONCE: usize = 23;

// Lines that are no case; none agrees.
pub const UNREAD: usize = 0;

// Lines spoiled on purpose, which agree where they are found wrong.
pub const SPOILED: usize = 4;

// The rows of gateway calls by their verdict start here.
pub const VERDICTS: usize = 13;

const RECORD_MADE: usize = 21;

const RECORD_REFUSED: usize = 22;

// The rows of gateway calls by whose answer it is start here.
pub const WHOSE: usize = ONCE;

// Gateway calls on another network than document 01's.
pub const ELSEWHERE: usize = 27;

// The row of a line that has a record made.
pub fn of_making(made: bool) -> usize {
    if made { RECORD_MADE } else { RECORD_REFUSED }
}

// The names of the rows, in their order.
pub fn print<R: Print>(rt: &R, tally: Tally) -> io::Result<()> {
    let names = b"line not understood\n\
          checksum\n\
          checksum in two pieces\n\
          make_ip_frame, and in place\n\
          spoiled line, found wrong\n\
          make_udp_payload\n\
          make_tcp_frame\n\
          checksum of bytes made by rule\n\
          whole frame from outside\n\
          option walk\n\
          message cut at every place\n\
          DHCP reply\n\
          types of replies\n\
          gateway, drop\n\
          gateway, reply\n\
          gateway, DNS\n\
          gateway, relay\n\
          gateway, TCP handoff\n\
          gateway, no room\n\
          gateway, too long\n\
          gateway, cut message type\n\
          record made\n\
          record refused\n\
          of the gateway's, the Rust's own answers\n\
          of the gateway's, document 01's, where the Rust panics\n\
          of the gateway's, document 01's, where the Rust cuts a length\n\
          of the gateway's, document 01's, where the Rust knows no buffer\n\
          of the gateway's, on another network\n";
    vectors::print(rt, tally, names, ONCE)
}
