// Readers of a buffer of any length: a byte past the end reads as 0. Whoever has to tell a short frame from
// zeros looks at its length first, as document 01's order of tests does. Beside them the bytes of a number,
// for whoever writes one.
ghost use Rattle.std.specs.Prelude.{◌≡◌, ◌<◌, length};
ghost use Rattle.base.specs.Bytes.{u8_at, u16_at, u32_at, bytes_at as Bytes·bytes_at, be32 as Bytes·be32};

pub fn byte_at(buf: &[u8], at: usize) -> u8
    ensures { result ≡ u8_at buf.now at }
{
    buf.get(at).copied().unwrap_or(0)
}

// As many bytes as the caller's array has: `let mac: [u8; 6] = bytes_at(frame, 6);`.
pub fn bytes_at<const N: usize>(buf: &[u8], at: usize) -> [u8; N]
    ensures { result ≡ Bytes·bytes_at buf.now at N }
{
    match buf.get(at..) {
        Some(rest) => match rest.first_chunk() {
            Some(bytes) => *bytes,
            None => padded(rest),
        },
        None => [0; N],
    }
}

// The same where the buffer ends inside of them, with no loop up to six, the most that a field has: of six
// the last isn't there. (Of more, which no caller reads, those that are left are copied.)
fn padded<const N: usize>(rest: &[u8]) -> [u8; N]
    requires { length rest.now < N }
    ensures { result ≡ Bytes·bytes_at rest.now 0 N }
{
    let six = [
        byte_at(rest, 0),
        byte_at(rest, 1),
        byte_at(rest, 2),
        byte_at(rest, 3),
        byte_at(rest, 4),
        0,
    ];
    if let Some(bytes) = six.first_chunk() {
        return *bytes;
    }
    let mut bytes = [0; N];
    bytes[..rest.len()].copy_from_slice(rest);
    bytes
}

pub fn u16be(buf: &[u8], at: usize) -> u16
    ensures { result ≡ u16_at buf.now at }
{
    u16::from_be_bytes(bytes_at(buf, at))
}

pub fn u32be(buf: &[u8], at: usize) -> u32
    ensures { result ≡ u32_at buf.now at }
{
    u32::from_be_bytes(bytes_at(buf, at))
}

// The four bytes of a number, as `u32be` reads them.
pub fn be32(n: u32) -> [u8; 4]
    ensures { result ≡ Bytes·be32 n }
{
    n.to_be_bytes()
}
