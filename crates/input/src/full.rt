// Reading until a buffer is full or the input ends.
ghost use Rattle.std.specs.Prelude.{ℕ, ◌<◌, ◌≤◌, IfOk, OnErr, length, take};
ghost use Rattle.std.specs.Io.{ReadsAtMost};
ghost use Rattle.std.specs.Io.KnownBytes.{Consumes, IsAtEnd};

use std::io;
use std::io::Read;

// Reads until `out` is full or the input ends, and says how many bytes it put at the start of `out`: fewer
// than it holds only at the input's end. A read that fails ends it with that error, and what was read before
// stands at the start of `out`. (A read says how far it came, so a `for`, which takes one step a turn, would
// be no plainer.)
pub fn read_full<R: Read>(from: &mut R, out: &mut [u8]) -> io::Result<usize>
    ensures in_bounds { ReadsAtMost result out.new }
    ensures bytes { IfOk result (λ n. Consumes (R.remaining from.old) (R.remaining from.new) (take n out.new)) }
    ensures left { OnErr result ((n : ℕ) × (n ≤ length out.new) × Consumes (R.remaining from.old) (R.remaining from.new) (take n out.new)) }
    ensures end { IfOk result (λ n. n < length out.new → IsAtEnd (R.remaining from.new)) }
{
    let mut done = 0;
    while done < out.len() {
        let n = from.read(&mut out[done..])?;
        if n == 0 {
            break;
        }
        done += n;
    }
    Ok(done)
}

#[cfg(test)]
mod tests {
    use super::*;

    // Gives one byte at a time, and fails once it has none left.
    #[derive(Drop)]
    struct Failing {
        left: u8,
    }

    impl Read for Failing {
        fn read(&mut self, buf: &mut [u8]) -> io::Result<usize> {
            if self.left == 0 {
                return Err(io::Error::from(io::ErrorKind::TimedOut));
            }
            if buf.is_empty() {
                return Ok(0);
            }
            buf[0] = self.left;
            self.left -= 1;
            Ok(1)
        }
    }

    #[test]
    fn goes_on_over_short_reads(rt: HostRuntime) -> io::Result<()> {
        let mut from = Failing { left: 3 };
        let mut out = [0u8; 3];
        let n = read_full(&mut from, &mut out)?;
        assert!(rt; n == 3 && out == [3, 2, 1]);
        Ok(())
    }

    #[test]
    fn stops_at_the_inputs_end(rt: HostRuntime) -> io::Result<()> {
        let mut from: &[u8] = b"abc";
        let mut out = [0u8; 5];
        let n = read_full(&mut from, &mut out)?;
        assert!(rt; n == 3 && out == *b"abc\0\0");
        Ok(())
    }

    #[test]
    fn a_read_that_fails_ends_it(rt: HostRuntime) {
        let mut from = Failing { left: 2 };
        let mut out = [0u8; 5];
        let error = read_full(&mut from, &mut out).map_err(|e| e.kind());
        assert!(rt; error == Err(io::ErrorKind::TimedOut));
    }
}
