// What a line expects of the reader. Behind KIND and ORIGIN stand the layers of the kind's reading, the
// outermost first: header, payload and stop, in four bytes each. DHCP's message type follows them.
ghost use Rattle.std.specs.Prelude.{◌≤◌, ◌<◌};

use reader::{Layer, Reading};
use wire::bytes::{byte_at, u32be};

// The kinds. (As numbers: a line has its kind as a byte, and the tally a row at that number.)
const OUTSIDE: u8 = 0;

const ARP: u8 = 1;

const ICMP: u8 = 2;

const UDP: u8 = 3;

const DHCP: u8 = 4;

const TCP: u8 = 5;

const OTHER_IPV4: u8 = 6;

pub const KINDS: u8 = 7;

const LAYERS_AT: usize = 2;

const LAYER_SIZE: usize = 12;

const TYPE_AT: usize = LAYERS_AT + 4 * LAYER_SIZE;

// Where the line goes on behind what it expects.
pub fn end(kind: u8) -> usize
    ensures { result ≤ 51 }
{
    match kind {
        OUTSIDE => LAYERS_AT,
        ARP => LAYERS_AT + LAYER_SIZE,
        OTHER_IPV4 => LAYERS_AT + 2 * LAYER_SIZE,
        DHCP => TYPE_AT + 1,
        _ => LAYERS_AT + 3 * LAYER_SIZE,
    }
}

// What the reader is to answer.
pub fn reading(line: &[u8], kind: u8) -> Option<Reading> {
    let ethernet = layer(line, 0);
    let ip = layer(line, 1);
    match kind {
        ARP => Some(Reading::Arp { ethernet }),
        ICMP => Some(Reading::Icmp {
            ethernet,
            ip,
            message: layer(line, 2),
        }),
        UDP => Some(Reading::Udp {
            ethernet,
            ip,
            datagram: layer(line, 2),
        }),
        DHCP => Some(Reading::Dhcp {
            ethernet,
            ip,
            datagram: layer(line, 2),
            message: layer(line, 3),
            message_type: byte_at(line, TYPE_AT),
        }),
        TCP => Some(Reading::Tcp {
            ethernet,
            ip,
            segment: layer(line, 2),
        }),
        OTHER_IPV4 => Some(Reading::OtherIpv4 { ethernet, ip }),
        _ => None,
    }
}

fn layer(line: &[u8], number: usize) -> Layer
    requires { number < 4 }
{
    let at = LAYERS_AT + number * LAYER_SIZE;
    Layer::of(
        u32be(line, at) as usize,
        u32be(line, at + 4) as usize,
        u32be(line, at + 8) as usize,
    )
}
