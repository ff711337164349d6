// A verdict as C is told it: document 01's number, which is returned, and its values. Nothing relies on
// checks by its caller.
#![tactic(auto)]

ghost use Rattle.std.specs.Prelude.{[], ◌∷◌, ◌≡◌};
ghost use Rattle.record.specs.Answer.{paper};
ghost use Rattle.verdict_numbers.specs.Numbers.{padded};

use record::{Refusal, Verdict};

#[tactic(auto, unfolding(record::specs::Answer::paper, crate::specs::Numbers::padded))]
pub fn numbered(verdict: Result<Verdict, Refusal>, values: &mut [usize; 2]) -> u32
    ensures { result ∷ values.new ≡ padded (paper verdict) }
{
    let (number, first, second) = match verdict {
        Ok(Verdict::Drop) => (0, 0, 0),
        Ok(Verdict::Reply(n)) => (1, n, 0),
        Ok(Verdict::Dns { start, len }) => (2, start, len),
        Ok(Verdict::Relay { start, len }) => (3, start, len),
        Ok(Verdict::Tcp(len)) => (4, len, 0),
        Err(Refusal::NoRoom(needed)) => (5, needed, 0),
        Err(Refusal::TooLong(len)) => (6, len, 0),
        Err(Refusal::CutType(place)) => (7, place, 0),
    };
    *values = [first, second];
    number
}
