// Room for what is read and for what a call is lent. Marked room shows what a call wrote into it.
ghost use Rattle.std.specs.Prelude.{◌≡◌, true, length};
ghost use Rattle.vectors.specs.Spaces.{Marked};

pub const MARK: u8 = 0xa5;

// Room of any size, filled with one value. The contract gives only the length: that is all its users need.
pub fn filled<T: Copy, const N: usize>(value: T) -> [T; N]
    ensures { N ≡ length result }
{
    [value; N]
}

// Whether every byte is the mark.
pub fn is_marked(s: &[u8]) -> bool
    ensures { (result ≡ true → Marked s.now) × (Marked s.now → result ≡ true) }
{
    s.iter().all(|byte| *byte == MARK)
}
