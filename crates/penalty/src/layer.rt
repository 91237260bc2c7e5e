// Layers: what a layer is, by the laws that each keeps, and a penalty with a layer over it.
ghost use Rattle.std.specs.Prelude.{◌≡◌};
ghost use Rattle.penalty.specs.Cost.{Cost, Capped, Outside, Valley};
ghost use Rattle.penalty.specs.Layers.{deeper};
ghost use Rattle.penalty.specs.Question.{asked};

use crate::interface::Penalty;
use crate::question::Question;

/// Makes the costs of a penalty of those of the penalty below it.
pub trait Layer {
    // The meaning of a layer: what it makes of the costs below it.
    ghost layered: { Self → Cost → Cost };

    /// The cost of what is asked, over `below`.
    fn cost_over<P: Penalty>(&self, below: &P, question: Question) -> u64
        ensures { result ≡ asked (layered self.now (P.cost below.now)) question };

    // Where no cost below is above TOP, no cost is.
    ghost capped: { (l : Self) (f : Cost) → Capped f → Capped (layered l f) };

    // Where the costs below are TOP outside the domain, so are these.
    ghost outside: { (l : Self) (f : Cost) → Outside f → Outside (layered l f) };

    // Where the costs below keep the valley law, so do these.
    ghost valley: { (l : Self) (f : Cost) → Capped f → Valley f → Valley (layered l f) };
}

/// A penalty with a layer over it.
#[derive(Clone, Copy, Drop)]
pub struct Layered<P, L> {
    below: P,
    layer: L,
}

impl<P, L> Layered<P, L> {
    /// This layer over `below`.
    pub fn over(below: P, layer: L) -> Layered<P, L>
        ensures below { result.below ≡ below }
        ensures layer { result.layer ≡ layer }
    {
        Layered { below, layer }
    }
}

impl<P: Penalty, L: Layer> Penalty for Layered<P, L> {
    ghost cost = { λ p. L.layered p.layer (P.Penalty.cost p.below) };

    ghost depth = { λ p. deeper (P.Penalty.depth p.below) };

    ghost capped = { λ p. L.Layer.capped p.layer (P.Penalty.cost p.below) (P.Penalty.capped p.below) };

    ghost outside = { λ p. L.Layer.outside p.layer (P.Penalty.cost p.below) (P.Penalty.outside p.below) };

    ghost valley = { λ p. L.Layer.valley p.layer (P.Penalty.cost p.below) (P.Penalty.capped p.below) (P.Penalty.valley p.below) };

    fn cost(&self, question: Question) -> u64 {
        self.layer.cost_over(&self.below, question)
    }

    fn depth(&self) -> u8 {
        self.below.depth().saturating_add(1)
    }
}
