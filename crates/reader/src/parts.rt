// What the reader reports of a frame. Places are counted from the frame's first byte.
ghost use Rattle.std.specs.Prelude.{◌≡◌};

// A header runs from `header` to its payload, and the payload from `payload` up to, not including,
// `stop`.
#[derive(Clone, Copy, PartialEq, Eq)]
pub struct Layer {
    pub header: usize,
    pub payload: usize,
    pub stop: usize,
}

impl Layer {
    pub fn of(header: usize, payload: usize, stop: usize) -> Layer
        ensures { result ≡ record { header = header; payload = payload; stop = stop } }
    {
        Layer {
            header,
            payload,
            stop,
        }
    }
}

#[derive(Clone, Copy, PartialEq, Eq)]
pub enum Reading {
    // The payload is the ARP packet.
    Arp {
        ethernet: Layer,
    },
    Icmp {
        ethernet: Layer,
        ip: Layer,
        message: Layer,
    },
    Udp {
        ethernet: Layer,
        ip: Layer,
        datagram: Layer,
    },
    // The message's header ends with the cookie; its payload is the list of options.
    Dhcp {
        ethernet: Layer,
        ip: Layer,
        datagram: Layer,
        message: Layer,
        message_type: u8,
    },
    Tcp {
        ethernet: Layer,
        ip: Layer,
        segment: Layer,
    },
    OtherIpv4 {
        ethernet: Layer,
        ip: Layer,
    },
}
