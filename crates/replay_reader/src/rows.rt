// The rows of the tally: lines that are no case, spoiled ones, the others by their origin, and those
// once more by their kind.
use crate::cases::Case;
use std::io;
use vectors::Tally;

const UNREAD: usize = 0;

const SPOILED: usize = 1;

// Origins are counted from 1.
const ORIGINS: usize = 1;

const KINDS: usize = 9;

// (In place: handed on by value, the whole tally was copied for each line.)
pub fn count(tally: &mut Tally, case: Case) {
    match case {
        Case::Blank => {}
        Case::Unread => *tally = tally.counted(UNREAD, false),
        Case::Spoiled(found) => *tally = tally.counted(SPOILED, found),
        Case::Compared {
            origin,
            kind,
            agrees,
        } => {
            *tally = tally.counted(ORIGINS + (origin as usize), agrees);
            *tally = tally.counted(KINDS + (kind as usize), agrees);
        }
    }
}

// The names of the rows, in their order.
pub fn print<R: Print>(rt: &R, tally: Tally) -> io::Result<()> {
    let names = b"line not understood\n\
          spoiled line, found wrong\n\
          captured as real software sent it\n\
          captured, and damaged\n\
          checksums stored as 0 and 0xffff, both ways\n\
          lengths at a limit and one past it, and trailing bytes\n\
          option lists\n\
          the Rust's replies and built frames\n\
          drawn at random\n\
          by kind, outside the grammar\n\
          by kind, ARP\n\
          by kind, ICMP\n\
          by kind, UDP\n\
          by kind, DHCP\n\
          by kind, TCP\n\
          by kind, other IPv4\n";
    vectors::print(rt, tally, names, KINDS)
}
