// ARP for Ethernet and IPv4: RFC 826. Offsets are counted from the packet's first byte.
pub const PACKET: usize = 28;

// Fields.
pub const HARDWARE: usize = 0;

pub const PROTOCOL: usize = 2;

pub const HARDWARE_LENGTH: usize = 4;

pub const PROTOCOL_LENGTH: usize = 5;

pub const OPERATION: usize = 6;

pub const SENDER_MAC: usize = 8;

pub const SENDER_IP: usize = 14;

pub const TARGET_IP: usize = 24;

// Values: Ethernet's number and the lengths of its addresses and of IPv4's.
pub const ETHERNET: u16 = 1;

pub const MAC_LENGTH: u8 = 6;

pub const ADDRESS_LENGTH: u8 = 4;

pub const REQUEST: u16 = 1;

pub const REPLY: u16 = 2;
