// Writing into the lent buffer.
ghost use Rattle.std.specs.Prelude.{◌≡◌};
ghost use Rattle.base.specs.Buffer.{put_if_fits};

// Copies `src` into `out` from `at` on; where it does not fit there, nothing is copied.
pub fn put(out: &mut [u8], at: usize, src: &[u8])
    ensures { out.new ≡ put_if_fits at src.now out.old }
{
    if out.len() < at {
        return;
    }
    if out.len() - at < src.len() {
        return;
    }
    out[at..at + src.len()].copy_from_slice(src);
}
