// The strict reader, for C.
ghost use Rattle.std.specs.Prelude.{[], ◌∷◌, ◌++◌, ◌≡◌};
ghost use Rattle.host.specs.Parts.{Reported, places};
ghost use Rattle.reader.specs.Reported.{layer_of};

use reader::{Layer, Reading, read};

// C's thirteen places have room for four layers, and are 0 where there are fewer.
const ABSENT: Layer = Layer {
    header: 0,
    payload: 0,
    stop: 0,
};

const OUTSIDE: u32 = 8;

// The kind, from 1 in document 01's order, and the parts; or 8, and `parts` is left alone. (C has no enum with
// parts and no Option.)
#[unsafe(no_mangle)]
#[tactic(auto, unfolding(reader::specs::Reported::report_of, crate::specs::Parts::number_of, crate::specs::Parts::kind_number, crate::specs::Parts::places_of, crate::specs::Parts::places))]
pub extern "C" fn yavoledu_read(frame: &[u8], parts: &mut [usize; 13]) -> u32
    ensures { Reported frame.now parts.old parts.new result }
{
    match read(frame) {
        Some(Reading::Arp { ethernet }) => lay(1, ethernet, ABSENT, ABSENT, ABSENT, 0, parts),
        Some(
            Reading::Icmp {
                ethernet,
                ip,
                message,
            },
        ) => lay(2, ethernet, ip, message, ABSENT, 0, parts),
        Some(
            Reading::Udp {
                ethernet,
                ip,
                datagram,
            },
        ) => lay(3, ethernet, ip, datagram, ABSENT, 0, parts),
        Some(
            Reading::Dhcp {
                ethernet,
                ip,
                datagram,
                message,
                message_type,
            },
        ) => lay(4, ethernet, ip, datagram, message, message_type, parts),
        Some(
            Reading::Tcp {
                ethernet,
                ip,
                segment,
            },
        ) => lay(5, ethernet, ip, segment, ABSENT, 0, parts),
        Some(Reading::OtherIpv4 { ethernet, ip }) => {
            lay(6, ethernet, ip, ABSENT, ABSENT, 0, parts)
        }
        None => OUTSIDE,
    }
}

// Writes the places of four layers and the message type, and hands the kind back. (An array of four layers
// was tried: the contract then takes its length apart by hand, and is no plainer.)
#[tactic(auto, unfolding(crate::specs::Parts::places))]
fn lay(
    kind: u32,
    a: Layer,
    b: Layer,
    c: Layer,
    d: Layer,
    message_type: u8,
    parts: &mut [usize; 13],
) -> u32
    ensures kind { result ≡ kind }
    ensures parts { parts.new
        ≡ places (layer_of a ∷ layer_of b ∷ layer_of c ∷ layer_of d ∷ []) ++ message_type ∷ [] }
{
    *parts = [
        a.header,
        a.payload,
        a.stop,
        b.header,
        b.payload,
        b.stop,
        c.header,
        c.payload,
        c.stop,
        d.header,
        d.payload,
        d.stop,
        usize::from(message_type),
    ];
    kind
}
