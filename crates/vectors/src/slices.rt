// Parts of a line, for lines of any length.
ghost use Rattle.std.specs.Prelude.{◌≡◌, take, drop};
ghost use Rattle.vectors.specs.Slices.{whole_part};

// The `len` bytes of `s` from `at` on, or none where they run past its end.
#[tactic(auto, unfolding(crate::specs::Slices::whole_part))]
pub fn part(s: &[u8], at: usize, len: usize) -> &[u8]
    ensures { result.now ≡ whole_part s.now at len }
{
    rest(s, at).get(..len).unwrap_or(&[])
}

// The bytes of `s` from `at` on.
pub fn rest(s: &[u8], at: usize) -> &[u8]
    ensures { result.now ≡ drop at s.now }
{
    s.get(at..).unwrap_or(&[])
}

// The first `len` items of `s`, or all where there are fewer.
pub fn front<T>(s: &mut [T], len: usize) -> &mut [T]
    ensures { result.now ≡ take len s.old }
{
    let len = len.min(s.len());
    &mut s[..len]
}
