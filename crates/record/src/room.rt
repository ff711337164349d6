// The rules of 6 and 5, which each call that builds asks, 6 before 5. (One function for both would be handed
// the refusal, and each call would write its number twice.)
ghost use Rattle.std.specs.Prelude.{◌≡◌, ◌<◌, ◌≤◌, MatchResult};
ghost use Rattle.record.specs.declared.answer.Refusal.TheVariants.{NoRoom, TooLong};

use crate::answer::Refusal;

// The length `len`, where it is not past its limit.
pub fn within_limit(limit: usize, len: usize) -> Result<usize, Refusal>
    ensures { MatchResult result
        (λ n. (len ≤ limit) × (n ≡ len))
        (λ refusal. (limit < len) × (refusal ≡ TooLong len)) }
{
    if limit < len {
        return Err(Refusal::TooLong(len));
    }
    Ok(len)
}

// The bytes `need`, where there is room for them.
pub fn within_room(room: usize, need: usize) -> Result<usize, Refusal>
    ensures { MatchResult result
        (λ n. (need ≤ room) × (n ≡ need))
        (λ refusal. (room < need) × (refusal ≡ NoRoom need)) }
{
    if room < need {
        return Err(Refusal::NoRoom(need));
    }
    Ok(need)
}
