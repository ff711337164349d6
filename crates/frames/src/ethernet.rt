// The Ethernet header of what the gateway sends.
ghost use Rattle.std.specs.Prelude.{◌≡◌};
ghost use Rattle.record.specs.Network.{gateway_mac};
ghost use Rattle.wire.specs.Rfc894.{ethernet};

use record::GATEWAY_MAC;

// To `mac`, from the gateway's. Byte by byte: pieces put in by copy_from_slice were tried, and left two goals
// open that a literal does not have.
pub fn ethernet_header(mac: [u8; 6], kind: u16) -> [u8; 14]
    ensures { result ≡ ethernet mac gateway_mac kind }
{
    let kind = kind.to_be_bytes();
    [
        mac[0],
        mac[1],
        mac[2],
        mac[3],
        mac[4],
        mac[5],
        GATEWAY_MAC[0],
        GATEWAY_MAC[1],
        GATEWAY_MAC[2],
        GATEWAY_MAC[3],
        GATEWAY_MAC[4],
        GATEWAY_MAC[5],
        kind[0],
        kind[1],
    ]
}
