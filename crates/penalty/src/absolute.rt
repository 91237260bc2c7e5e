// The absolute deviation: the bottom that costs the size of the departure from the even share.
ghost use Rattle.penalty.specs.Absolute.{absolute};
ghost use Rattle.std.proofs.Common.{rules};
ghost use Rattle.penalty.specs.Deviation.{size};
ghost use Rattle.penalty.specs.Bottoms.{bottom_valley, size_valley};

use crate::deviation::deviation;
use crate::interface::{Penalty, TOP};
use crate::question::Question;

/// The size of S·x − k·d.
#[derive(Clone, Copy)]
pub struct AbsoluteDeviation;

impl Penalty for AbsoluteDeviation {
    ghost cost = { λ _. absolute };

    ghost depth = { λ _. 0 };

    ghost capped = { Prim.search rules };

    ghost outside = { Prim.search rules };

    ghost valley = { λ p. bottom_valley size (λ S c d x k. Prim.search rules) size_valley };

    fn cost(&self, question: Question) -> u64 {
        // The same guard in each bottom: a function that takes the rest as a closure would be no shorter.
        if !question.in_domain() {
            return TOP;
        }
        deviation(question).unsigned_abs()
    }

    // No default in the trait: `0 ≡ depth self.now` does not prove there, since an impl may say another depth.
    fn depth(&self) -> u8 {
        0
    }
}
