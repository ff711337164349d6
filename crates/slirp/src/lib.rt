// One call for one guest frame: what `rules` decides is built here, or handed on. Frames of any length,
// buffers of any size, any record; nothing relies on checks by its caller.
#![tactic(auto)]

mod entry;
mod replies;

pub use entry::handle;
pub use rules::{Decision, decide};
