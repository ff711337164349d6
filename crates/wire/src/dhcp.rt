// DHCP: RFC 2131, figure 1, and RFC 2132, section 2. Offsets are counted from the message's first byte.

// The fixed fields and the cookie; behind them stand the options.
pub const FIXED: usize = 240;

// Fields.
pub const OPERATION: usize = 0;

pub const HARDWARE: usize = 1;

pub const HARDWARE_LENGTH: usize = 2;

pub const XID: usize = 4;

pub const COOKIE: usize = 236;

// Values: who sends, and what every message has.
pub const BOOT_REQUEST: u8 = 1;

pub const BOOT_REPLY: u8 = 2;

pub const ETHERNET: u8 = 1;

pub const MAC_LENGTH: u8 = 6;

pub const MAGIC_COOKIE: u32 = 0x63825363;

// Option codes.
pub const PAD: u8 = 0;

pub const MESSAGE_TYPE: u8 = 53;

pub const END: u8 = 255;

// Message types, the values of option 53, run from 1 to this one.
pub const LAST_TYPE: u8 = 8;
