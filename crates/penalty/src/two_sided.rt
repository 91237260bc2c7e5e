// The two-sided bottom: being behind the even share costs by another scale than being ahead of it.
ghost use Rattle.std.specs.Prelude.{◌≡◌};
ghost use Rattle.penalty.specs.TwoSided.{two_sided};
ghost use Rattle.penalty.specs.TwoSidedLaws.{two_sided_capped, two_sided_valley};
ghost use Rattle.std.proofs.Common.{rules};

use crate::interface::{Penalty, TOP};
use crate::question::Question;
use crate::root_table::roots;
use crate::side::{Side, side_and_step};

/// 40 for each step where the count is behind its even share, the root table where it is not.
#[derive(Clone, Copy)]
pub struct TwoSided;

impl Penalty for TwoSided {
    ghost cost = { λ _. two_sided };

    ghost depth = { λ _. 0 };

    ghost capped = { λ _. two_sided_capped };

    ghost outside = { Prim.search rules };

    ghost valley = { λ _. two_sided_valley };

    fn cost(&self, question: Question) -> u64 {
        // The same guard in each bottom: a function that takes the rest as a closure would be no shorter.
        if !question.in_domain() {
            return TOP;
        }
        match side_and_step(question) {
            (Side::Ahead, step) => u64::from(roots()[usize::from(step)]),
            (Side::Behind, step) => 40 * u64::from(step),
        }
    }

    // No default in the trait: `0 ≡ depth self.now` does not prove there, since an impl may say another depth.
    fn depth(&self) -> u8 {
        0
    }
}
