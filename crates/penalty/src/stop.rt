// The layer stop: a count too far ahead of its even share is forbidden.
ghost use Rattle.penalty.specs.Layers.{stopped};
ghost use Rattle.penalty.specs.Maps.{stop_capped, stop_valley};
ghost use Rattle.std.proofs.Common.{rules};

use crate::deviation::deviation;
use crate::interface::{Penalty, TOP};
use crate::layer::Layer;
use crate::question::Question;
use crate::threshold::Threshold;

/// The layer that forbids each q above a limit.
#[derive(Clone, Copy, PartialEq, Eq, Debug)]
pub struct Stop {
    pub limit: Threshold,
}

impl Layer for Stop {
    ghost layered = { λ l. stopped l.limit };

    ghost capped = { λ l f. stop_capped l.limit };

    ghost outside = { Prim.search rules };

    ghost valley = { λ l f. stop_valley l.limit };

    fn cost_over<P: Penalty>(&self, below: &P, question: Question) -> u64 {
        if deviation(question) > i64::from(self.limit.value()) {
            return TOP;
        }
        below.cost(question)
    }
}
