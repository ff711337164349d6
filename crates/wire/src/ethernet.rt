// IPv4 over Ethernet: RFC 894. Offsets are counted from the frame's first byte.
ghost use Rattle.std.specs.Prelude.{◌≡◌};
ghost use Rattle.wire.specs.Rfc894.{source_mac, type_of};

use crate::bytes::{bytes_at, u16be};

pub const HEADER: usize = 14;

// Fields.
const SOURCE: usize = 6;

const TYPE: usize = 12;

// Values of the type.
pub const ARP: u16 = 0x0806;

pub const IPV4: u16 = 0x0800;

pub fn eth_src(frame: &[u8]) -> [u8; 6]
    ensures { result ≡ source_mac frame.now }
{
    bytes_at(frame, SOURCE)
}

pub fn eth_type(frame: &[u8]) -> u16
    ensures { result ≡ type_of frame.now }
{
    u16be(frame, TYPE)
}
