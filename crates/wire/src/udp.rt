// UDP: RFC 768. Offsets are counted from the datagram's first byte.
ghost use Rattle.std.specs.Prelude.{◌≡◌};
ghost use Rattle.wire.specs.Rfc768.{pseudo_header_lem};

pub const HEADER: usize = 8;

// The longest data behind a header.
pub const DATA_LIMIT: usize = 65527;

// Fields.
pub const SOURCE: usize = 0;

pub const TARGET: usize = 2;

pub const LENGTH: usize = 4;

pub const CHECKSUM: usize = 6;

// Ports.
pub const DNS: u16 = 53;

pub const DHCP_SERVER: u16 = 67;

pub const DHCP_CLIENT: u16 = 68;

// What UDP and TCP sum before the segment: both addresses, the protocol and the segment's length. (Byte by
// byte, as the RFC has it, and so are all headers here: slices copied into a row of zeros were tried, and are
// no plainer.)
pub fn pseudo_header(src_ip: [u8; 4], dst_ip: [u8; 4], proto: u8, len: u16) -> [u8; 12]
    ensures { result ≡ pseudo_header_lem src_ip dst_ip proto len }
{
    let [high, low] = len.to_be_bytes();
    [
        src_ip[0], src_ip[1], src_ip[2], src_ip[3], dst_ip[0], dst_ip[1], dst_ip[2], dst_ip[3], 0,
        proto, high, low,
    ]
}
