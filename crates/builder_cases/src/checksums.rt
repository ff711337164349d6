// Checksums: of a line's bytes, of two pieces one behind the other, and of bytes made by rule.
use wire::bytes::{byte_at, u16be, u32be};

pub fn of_one_piece(line: &[u8]) -> bool {
    if line.len() < 3 {
        return false;
    }
    sums::checksum(&line[3..]) == u16be(line, 1)
}

pub fn of_two_pieces(line: &[u8]) -> bool {
    let n = u16be(line, 3) as usize;
    if line.len() < 5 + n {
        return false;
    }
    65535 - sums::sum(sums::sum(0, &line[5..5 + n]), &line[5 + n..]) == u16be(line, 1)
}

// (A call of its own: as a part of its caller its room would be entered for each line of any kind.)
#[inline(never)]
pub fn of_bytes_by_rule(line: &[u8]) -> bool {
    let len = u32be(line, 4) as usize;
    let mut space: [u8; 300032] = vectors::filled(0);
    let bytes = vectors::front(&mut space, len);
    if bytes.len() < len {
        return false;
    }
    vectors::lay_payload(line, byte_at(line, 3), bytes);
    sums::checksum(bytes) == u16be(line, 1)
}
