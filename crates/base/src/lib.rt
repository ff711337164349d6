// What has nothing to do with a network: writing into a lent buffer. Its definitions are those of bytes, parts and
// buffers, and of calls one after the other. No function relies on checks by its caller.
#![tactic(auto)]

mod write;

pub use write::put;
