// A penalty that counts how often it is asked.
ghost use Rattle.std.specs.Prelude.{◌≡◌};

use penalty::{Penalty, Question};
use std::cell::Cell;

/// A penalty, with how often it was asked.
#[derive(Drop)]
pub struct Counting<P> {
    below: P,
    asked: Cell<u32>,
}

impl<P> Counting<P> {
    /// This penalty, not asked yet.
    pub fn new(below: P) -> Counting<P>
        ensures { result.below ≡ below }
    {
        Counting {
            below,
            asked: Cell::new(0),
        }
    }

    /// How often it was asked.
    pub fn asked(&self) -> u32 {
        self.asked.get()
    }
}

impl<P: Penalty> Penalty for Counting<P> {
    ghost cost = { λ p. P.Penalty.cost p.below };

    ghost depth = { λ p. P.Penalty.depth p.below };

    ghost capped = { λ p. P.Penalty.capped p.below };

    ghost outside = { λ p. P.Penalty.outside p.below };

    ghost valley = { λ p. P.Penalty.valley p.below };

    fn cost(&self, question: Question) -> u64 {
        self.asked.set(self.asked.get().saturating_add(1));
        self.below.cost(question)
    }

    fn depth(&self) -> u8 {
        self.below.depth()
    }
}
