// The Internet checksum of RFC 1071, right at every length. Document 02, request 13/13: eight bytes are taken
// a step where there are eight, low byte first, as x86-64 and Arm load them. 65,536 folds to 1, and so does
// each of its powers, so four bytes count as the number that they are, and the two bytes of the sum are
// exchanged at the end: RFC 1071, section 2, (B) "byte order independence" and (C) "parallel summation".
// Request 3/13: a long input is folded on the way, so that no total leaves 64 bits, and every fold is a
// straight step. The plain sum, two bytes a step, stands at the end.
#![tactic(auto)]

ghost use Rattle.std.specs.Prelude.{◌≡◌, ◌+◌, ◌*◌, ◌/◌, ◌%◌, ◌^◌, ◌<◌, ◌≤◌, length, flat_map};
ghost use Rattle.std.specs.Int.{from_le_bytes, w16};
ghost use Rattle.sums.specs.Folding.{fold_to32, longest_piece, most_behind, most_folded};
ghost use Rattle.sums.specs.Rfc1071.{total, fold, checksum as Rfc1071·checksum};

// The longest part that is added up with no fold inside.
const PIECE: usize = 1073741824;

// The checksum of all of `input`.
pub fn checksum(input: &[u8]) -> u16
    ensures { result ≡ Rfc1071·checksum input.now }
{
    65535 - sum(0, input)
}

// The folded sum `start` continued over `input`. So several inputs are summed with no copy that joins them,
// as long as each but the last has an even length. As a call of its own it cost a TCP frame without data 41
// instructions more.
#[inline]
pub fn sum(start: u16, input: &[u8]) -> u16
    ensures { result ≡ fold (start + total input.now) }
{
    let mut so_far = u32::from(exchanged(start));
    let mut rest = input;
    // `for piece in input.chunks(PIECE)` was tried: 10 to 14 instructions more at every length, 112 for 101
    // at 64 bytes.
    while PIECE < rest.len() {
        let (piece, behind) = rest.split_at(PIECE);
        so_far = folded_to_32(total_behind(so_far, piece));
        rest = behind;
    }
    exchanged(folded(total_behind(so_far, rest)))
}

// The total behind `piece`, with no fold inside. 256 times this folds to what 256 times `so_far` and the
// words of the piece themselves fold to.
fn total_behind(so_far: u32, piece: &[u8]) -> u64
    requires { length piece.now ≤ longest_piece }
    ensures result_value { fold (result * 256) ≡ fold (so_far * 256 + total piece.now) }
    ensures upper_bound { result ≤ most_behind ((length piece.now + 3) / 4) }
{
    let (eights, rest) = piece.as_chunks::<8>();
    with_tail(eights_behind(u64::from(so_far), eights), rest)
}

// The same behind steps of eight bytes alone. The eight bytes of a step are added as one number, with no
// regard to what is carried out of 64 bits, and their upper half by itself once more: that tells the sum of
// the lower halves, `so_far` among them.
fn eights_behind(so_far: u64, eights: &[[u8; 8]]) -> u64
    requires { (so_far ≤ most_folded) × (length eights.now ≤ longest_piece / 8) }
    ensures value { fold (result * 256) ≡ fold (so_far * 256 + total (flat_map (λ eight. eight) eights.now)) }
    ensures upper_bound { result ≤ most_behind (length eights.now * 2) }
{
    let mut all = so_far;
    let mut upper = 0;
    for eight in eights {
        let next = u64::from_le_bytes(*eight);
        all = all.wrapping_add(next);
        upper = with_upper_half(upper, next);
    }
    lower_halves(all, upper) + upper
}

// The upper half of a step's eight bytes added to those of the steps before it.
fn with_upper_half(upper: u64, next: u64) -> u64
    requires { upper + 4294967295 < 2 ^ 64 }
    ensures value { result ≡ upper + next / 2 ^ 32 }
    ensures upper_bound { result ≤ upper + 4294967295 }
{
    upper + next / 4294967296
}

// The sum of the lower halves, from the sum of all modulo 2^64 and the sum of the upper halves.
fn lower_halves(all: u64, upper: u64) -> u64
    ensures { (result + upper * 2 ^ 32) % 2 ^ 64 ≡ all }
{
    all.wrapping_sub(upper % 4294967296 * 4294967296)
}

// What is left of a piece behind its eights: word by word, and an odd last byte with a 0 behind it. (That is
// the word's low byte here, and its high half, as RFC 1071 has it, once the sum's bytes are exchanged.)
fn with_tail(so_far: u64, rest: &[u8]) -> u64
    requires { (length rest.now < 8) × (so_far ≤ most_behind (longest_piece / 4)) }
    ensures result_value { fold (result * 256) ≡ fold (so_far * 256 + total rest.now) }
    ensures upper_bound { result ≤ so_far + 65535 * ((length rest.now + 1) / 2) }
{
    let mut running = so_far;
    let (words, odd) = rest.as_chunks::<2>();
    for word in words {
        running = with_word(running, *word);
    }
    if let [last] = odd {
        running += u64::from(*last);
    }
    running
}

// Every total of 64 bits is folded to 32 bits first, and then to 16.
fn folded(total: u64) -> u16
    ensures { result ≡ fold total }
{
    folded_to_16(folded_to_32(total))
}

// One step of the tail: a word added, low byte first.
fn with_word(running: u64, word: [u8; 2]) -> u64
    requires { running + 65535 < 2 ^ 64 }
    ensures value { result ≡ running + from_le_bytes w16 word }
    ensures upper_bound { result ≤ running + 65535 }
{
    running + u64::from(u16::from_le_bytes(word))
}

// Two folds are enough for 64 bits: the first leaves at most 8,589,934,590, the second at most 4,294,967,295.
fn folded_to_32(total: u64) -> u32
    ensures { result ≡ fold_to32 (fold_to32 total) }
{
    let once = folded_once(total);
    let twice = folded_once(once);
    twice as u32
}

// One fold: what lies above 32 bits is added to the 32 bits below.
fn folded_once(total: u64) -> u64
    ensures value { result ≡ fold_to32 total }
    ensures upper_bound { result ≤ 8589934590 }
{
    total / 4294967296 + total % 4294967296
}

// Two folds are enough for 32 bits: the first leaves at most 131,070, the second at most 65,535. (The same as
// `folded_to_32` at half the width: a trait of widths would be longer than the two, and so no plainer.)
fn folded_to_16(total: u32) -> u16
    ensures { result ≡ fold total }
{
    let once = total / 65536 + total % 65536;
    let twice = once / 65536 + once % 65536;
    twice as u16
}

// The two bytes of `n` exchanged. That is 256 times `n`, folded, since 65,536 folds to 1.
fn exchanged(n: u16) -> u16
    ensures { result ≡ fold (n * 256) }
{
    n.swap_bytes()
}

// The same sum as `sum`, as a reader would write it: two bytes a step, the high one first, with a fold at
// each. No exported function calls it; that both agree is a theorem (`wide_and_plain_agree`), so both stay.
pub fn plain(start: u16, input: &[u8]) -> u16
    ensures { result ≡ fold (start + total input.now) }
{
    let mut so_far = start;
    let (words, odd) = input.as_chunks::<2>();
    for word in words {
        so_far = added(so_far, u16::from_be_bytes(*word));
    }
    if let [last] = odd {
        so_far = added(so_far, u16::from_be_bytes([*last, 0]));
    }
    so_far
}

// Two words added, and what is carried out of them.
fn added(a: u16, b: u16) -> u16
    ensures { result ≡ fold (a + b) }
{
    let total = u32::from(a) + u32::from(b);
    (total / 65536 + total % 65536) as u16
}
