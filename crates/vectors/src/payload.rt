// A payload that a line writes out, or gives by a rule.
ghost use Rattle.std.specs.Prelude.{◌≡◌, ◌+◌, ◌%◌, ◌<◌};
ghost use Rattle.vectors.specs.Payload.{Laid, payload_byte_lem};

// Fills `out`: where the seed is 0 with what is written and zeros behind it, where it is 0xff with that byte
// alone, else byte i is (seed + 17 i) mod 251. (Each turn reads at a place of `written` too, so an iterator
// would have to count it beside.)
pub fn lay_payload(written: &[u8], seed: u8, out: &mut [u8])
    ensures { Laid written.now seed out.old out.new }
{
    let mut ruled = seed % 251;
    for i in 0..out.len() {
        out[i] = payload_byte(seed, wire::bytes::byte_at(written, i), ruled);
        ruled = next_ruled(ruled);
    }
}

fn payload_byte(seed: u8, written: u8, ruled: u8) -> u8
    ensures { result ≡ payload_byte_lem seed written ruled }
{
    match seed {
        0 => written,
        0xff => 0xff,
        _ => ruled,
    }
}

fn next_ruled(ruled: u8) -> u8
    requires { ruled < 251 }
    ensures { result ≡ (ruled + 17) % 251 }
{
    ((u16::from(ruled) + 17) % 251) as u8
}
