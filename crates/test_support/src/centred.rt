// A penalty that tests use: the distance from a centre that each slot has. The centres may rise and fall, so it is
// lawful, but its windows can be shut.
ghost use Rattle.std.proofs.Common.{rules};
ghost use Rattle.penalty.specs.Bottoms.{bottom_valley};
ghost use Rattle.test_support.specs.Centred.{centred, distance, distance_capped, distance_valley};

use penalty::{Penalty, Question, TOP};

/// How many slots have a centre of their own; from there on it is 0.
pub const CENTRES: usize = 8;

/// The distance of a count from the centre of its slot.
#[derive(Clone, Copy)]
pub struct Centred {
    pub centres: [u8; CENTRES],
}

impl Penalty for Centred {
    ghost cost = { λ p. centred p.centres };

    ghost depth = { λ _. 0 };

    ghost capped = { λ p. distance_capped p.centres };

    ghost outside = { Prim.search rules };

    ghost valley = { λ p. bottom_valley (distance p.centres) (distance_capped p.centres) (distance_valley p.centres) };

    fn cost(&self, question: Question) -> u64 {
        if !question.in_domain() {
            return TOP;
        }
        let centre = self
            .centres
            .get(usize::from(question.slot))
            .copied()
            .unwrap_or(0);
        u64::from(question.count.abs_diff(u16::from(centre)))
    }

    fn depth(&self) -> u8 {
        0
    }
}
