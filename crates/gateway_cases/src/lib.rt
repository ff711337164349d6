// Lines that call the gateway: each has the room, the frame, and the verdict, the reply and the record
// that the call has to leave. And lines that have a record made, with the answer and the record.
#![tactic(auto)]

mod calls;
mod makings;
mod pieces;

pub use calls::{Named, Outcome, called, is_call};
pub use makings::{MAKING, MakingOutcome, made};
