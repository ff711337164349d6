// Document 01's tests on a guest frame: what is to be done with it, decided by looking at it and at the
// guest's network. Frames of any length; nothing relies on checks by its caller.
#![tactic(auto)]

mod decision;

pub use decision::{Decision, decide};
