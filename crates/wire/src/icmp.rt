// ICMP: RFC 792. The type is the message's first byte.
pub const HEADER: usize = 8;

pub const ECHO_REQUEST: u8 = 8;
