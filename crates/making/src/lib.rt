// A guest's record is made here, by one call that looks at its network, for Rattle and for C. No function
// relies on checks by its caller.
#![tactic(auto)]

mod call;
mod over;

pub use call::{BadRecord, make};
pub use over::make_over;
