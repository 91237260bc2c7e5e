// How far a count is from its even share: q = S * x - k * d, a signed number.
ghost use Rattle.std.specs.Prelude.{◌≡◌, ◌*◌, ◌-ℤ◌, pos};

use crate::question::Question;

/// q: how far the count of a question is ahead of its even share, times the slots; below zero where it is behind.
// One signed number, and not its two parts: with these a best took a quarter longer.
pub(crate) fn deviation(question: Question) -> i64
    ensures { result ≡ pos (question.slots * question.count) -ℤ pos (question.slot * question.readings) }
{
    let taken = u32::from(question.slots) * u32::from(question.count);
    let due = u32::from(question.slot) * u32::from(question.readings);
    i64::from(taken) - i64::from(due)
}
