// The layer band: each cost falls by a tolerance.
ghost use Rattle.penalty.specs.Layers.{banded};
ghost use Rattle.penalty.specs.Maps.{map_capped, relax_map, map_outside, map_valley};

use crate::interface::{Penalty, TOP};
use crate::layer::Layer;
use crate::question::Question;
use crate::threshold::Threshold;

/// The layer under which costs below TOP fall by a tolerance, but not below 0.
#[derive(Clone, Copy, PartialEq, Eq, Debug)]
pub struct Band {
    pub tolerance: Threshold,
}

impl Layer for Band {
    ghost layered = { λ l. banded l.tolerance };

    ghost capped = { λ l f. map_capped (λ _. relax_map l.tolerance) };

    ghost outside = { λ l f. map_outside (λ _. relax_map l.tolerance) };

    ghost valley = { λ l f _. map_valley (λ _. relax_map l.tolerance) };

    // As for weights, TOP stays: a layer of any map of costs would only wrap the same lines once more.
    fn cost_over<P: Penalty>(&self, below: &P, question: Question) -> u64 {
        let cost = below.cost(question);
        if cost >= TOP {
            return TOP;
        }
        cost.saturating_sub(u64::from(self.tolerance.value()))
    }
}
