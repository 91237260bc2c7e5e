// On which side of its even share a count is, and by which step, for the bottoms with two scales.
ghost use Rattle.std.specs.Prelude.{◌≡◌, ◌*◌, ◌<◌, ◌≤◌, ◌^◌};
ghost use Rattle.penalty.specs.Deviation.{size};
ghost use Rattle.penalty.specs.TwoSided.{step as step_of};
ghost use Rattle.penalty.specs.declared.side.Side.TheVariants.{Ahead, Behind};

use crate::deviation::deviation;
use crate::question::Question;

/// A side of the even share.
#[derive(Clone, Copy, PartialEq, Eq, Debug)]
pub enum Side {
    /// The count is not behind its even share: q is not below zero.
    Ahead,
    /// The count is behind its even share: q is below zero.
    Behind,
}

/// The side and the step of the count of a question in the domain.
pub(crate) fn side_and_step(question: Question) -> (Side, u8)
    requires { 1 ≤ question.slots }
    ensures side { elim result.0 [
      | Ahead ↦ question.slot * question.readings ≤ question.slots * question.count
      | Behind ↦ question.slots * question.count < question.slot * question.readings
    ] }
    ensures step { result.1 ≡ step_of question.slots (size question.slots question.readings question.count question.slot) }
{
    let q = deviation(question);
    let side = if q < 0 { Side::Behind } else { Side::Ahead };
    (side, step(q.unsigned_abs(), question.slots))
}

// The step of a q of this size: how many whole eighths of a reading it is, but at most 255.
fn step(size: u64, slots: u16) -> u8
    requires small { size < 2 ^ 32 }
    requires slots { 1 ≤ slots }
    ensures { result ≡ step_of slots size }
{
    (8 * size / u64::from(slots)).min(255) as u8
}
