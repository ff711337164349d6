// What a caller may do with answers: pass one by value more than once, and make a fragment of any numbers.
// With an `impl Model` on `Fragment` there is no proof of `is_fit`, of `is_ruled` and of the last test.
use fragment_packets::{Datagram, Fragment, Packet, read};
use fragment_rules::{Refusal, Ruling, State, rule};

// The first fragment of a UDP datagram with one data byte, cut at 8, from oracle/trains_scapy.txt.
const FIRST: [u8; 42] = [
    0x52, 0x54, 0x00, 0x00, 0x00, 0x01, 0x52, 0x54, 0x00, 0x12, 0x34, 0x56, 0x08, 0x00, 0x45, 0x00,
    0x00, 0x1c, 0x14, 0x0f, 0x20, 0x00, 0x40, 0x11, 0x2e, 0xb2, 0x0a, 0x00, 0x02, 0x0f, 0x0a, 0x00,
    0x02, 0x02, 0xfa, 0xa9, 0x0f, 0xa0, 0x00, 0x09, 0x80, 0x81,
];

fn is_part(packet: Option<Packet>) -> bool {
    match packet {
        Some(Packet::Part(_)) => true,
        _ => false,
    }
}

fn is_whole(packet: Option<Packet>) -> bool {
    match packet {
        Some(Packet::Whole { .. }) => true,
        _ => false,
    }
}

fn is_write(ruling: Result<Ruling, Refusal>) -> bool {
    match ruling {
        Ok(Ruling::Write(_, _)) => true,
        _ => false,
    }
}

fn is_pass(ruling: Result<Ruling, Refusal>) -> bool {
    match ruling {
        Ok(Ruling::Pass) => true,
        _ => false,
    }
}

fn is_fit(frame: &[u8]) -> bool {
    let packet = read(frame);
    is_whole(packet) || is_part(packet)
}

fn is_ruled(frame: &[u8], bits: &[u64]) -> bool {
    let ruling = rule(State::Empty, frame, 65_515, bits);
    is_pass(ruling) || is_write(ruling)
}

#[test]
fn answers_are_used_twice(rt: HostRuntime) {
    assert!(rt; is_fit(&FIRST) && !is_fit(&FIRST[1..]));
    assert!(rt; is_ruled(&FIRST, &[0; 128]) && !is_ruled(&FIRST, &[1; 128]));
}

#[test]
fn a_fragment_holds_any_numbers(rt: HostRuntime) {
    let datagram = Datagram {
        source: 0,
        target: 0,
        protocol: 17,
        id: 0,
    };
    let last = Fragment {
        datagram,
        start: 34,
        length: 3,
        offset: 65_512,
        last: true,
    };
    assert!(rt; (last.first_block(), last.end(), last.stop_block()) == (8_189, 65_515, 8_190));
    let past = Fragment {
        length: usize::MAX,
        ..last
    };
    // Eights in 2^64 - 1 bytes: 2^61, the last of them short of a byte.
    assert!(rt;
        (past.first_block(), past.end(), past.stop_block()) == (8_189, usize::MAX, 1 << 61)
    );
}
