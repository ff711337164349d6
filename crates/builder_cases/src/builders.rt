// Frames and datagrams built, and the record that a builder returns.
ghost use Rattle.std.specs.Prelude.{◌≤◌};

use crate::answers::{Expected, is_expected};
use record::{Answer, Guest, Verdict};
use tcp::Endpoints;
use wire::bytes::{byte_at, bytes_at, u16be, u32be};

// The builders that a line can call.
#[derive(Clone, Copy, PartialEq, Eq)]
enum Builder {
    IpFrame,
    IpFrameInPlace,
    UdpPayload,
    TcpFrame,
}

impl Builder {
    // Where the answer that a line expects starts.
    fn expected_at(self) -> usize
        ensures { result ≤ 64 }
    {
        match self {
            Builder::IpFrame | Builder::IpFrameInPlace => 18,
            Builder::UdpPayload => 13,
            Builder::TcpFrame => 30,
        }
    }

    fn call(self, line: &[u8], payload: &[u8], out: &mut [u8]) -> Answer {
        match self {
            Builder::IpFrame => ip_frame(line, payload, out),
            Builder::IpFrameInPlace => ip_frame_in_place(line, payload, out),
            Builder::UdpPayload => udp_payload(line, payload, out),
            Builder::TcpFrame => tcp_frame(line, payload, out),
        }
    }
}

// Of the record of every call: no builder may change them, nor the network.
const MAC: [u8; 6] = [1, 2, 3, 4, 5, 6];

const XID: u32 = 0x0708090a;

// Built from a payload beside the buffer, and from one that lies in the buffer.
pub fn builds_ip_frame(line: &[u8]) -> bool {
    builds(line, Builder::IpFrame) && builds(line, Builder::IpFrameInPlace)
}

pub fn builds_udp_payload(line: &[u8]) -> bool {
    builds(line, Builder::UdpPayload)
}

pub fn builds_tcp_frame(line: &[u8]) -> bool {
    builds(line, Builder::TcpFrame)
}

// Besides verdict and bytes the record is compared: an IPv4 frame built spends the id, and the rest is kept.
fn builds(line: &[u8], builder: Builder) -> bool {
    let e = Expected::read(line, builder.expected_at());
    let mut payload_space: [u8; 300032] = vectors::filled(0);
    let mut out_space: [u8; 70400] = vectors::filled(vectors::MARK);
    let payload = vectors::front(&mut payload_space, e.len);
    let out = vectors::front(&mut out_space, e.room);
    if payload.len() < e.len || out.len() < e.room {
        return false;
    }
    vectors::lay_payload(e.written, e.seed, payload);
    let answer = builder.call(line, payload, out);
    let spent = e.number == 1 && builder != Builder::UdpPayload;
    let id = u16be(line, 1).wrapping_add(u16::from(spent));
    (answer.guest == known(id))
        && is_expected(e.number, e.value, e.head, payload, answer.verdict, out)
}

fn ip_frame(line: &[u8], payload: &[u8], out: &mut [u8]) -> Answer {
    frames::make_ip_frame(
        guest(line),
        bytes_at(line, 3),
        bytes_at(line, 9),
        bytes_at(line, 13),
        byte_at(line, 17),
        payload,
        out,
    )
}

fn ip_frame_in_place(line: &[u8], payload: &[u8], out: &mut [u8]) -> Answer {
    lay_at_34(payload, out);
    frames::make_ip_frame_in_place(
        guest(line),
        bytes_at(line, 3),
        bytes_at(line, 9),
        bytes_at(line, 13),
        byte_at(line, 17),
        payload.len(),
        out,
    )
}

// A payload too long for a frame is not laid, since the call then has to leave the buffer as it is.
fn lay_at_34(payload: &[u8], out: &mut [u8]) {
    if payload.len() <= 65515 {
        base::put(out, 34, payload);
    }
}

fn udp_payload(line: &[u8], payload: &[u8], out: &mut [u8]) -> Answer {
    let built = datagrams::make_udp_payload(
        bytes_at(line, 1),
        u16be(line, 5),
        bytes_at(line, 7),
        u16be(line, 11),
        payload,
        out,
    );
    Answer {
        verdict: built.map(Verdict::Reply),
        guest: guest(line),
    }
}

fn tcp_frame(line: &[u8], payload: &[u8], out: &mut [u8]) -> Answer {
    let ends = Endpoints {
        dst_mac: bytes_at(line, 3),
        src_ip: bytes_at(line, 9),
        src_port: u16be(line, 13),
        dst_ip: bytes_at(line, 15),
        dst_port: u16be(line, 19),
    };
    tcp::make_tcp_frame(
        guest(line),
        ends,
        u32be(line, 21),
        u32be(line, 25),
        byte_at(line, 29),
        payload,
        out,
    )
}

fn guest(line: &[u8]) -> Guest {
    known(u16be(line, 1))
}

fn known(id: u16) -> Guest {
    Guest::of(MAC, id, XID, vectors::network())
}
