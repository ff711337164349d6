// What programs share that replay stored vectors, one to a line: a line's bytes, parts of them, room
// for calls, payloads, records, and the tally of what agreed.
#![tactic(auto)]

mod driver;
mod lines;
mod payload;
mod records;
mod slices;
mod spaces;
mod tally;

pub use driver::{Judge, replay};
pub use lines::{Line, SPOILED, decode};
pub use payload::lay_payload;
pub use records::network;
pub use slices::{front, part, rest};
pub use spaces::{MARK, filled, is_marked};
pub use tally::{Tally, print};
