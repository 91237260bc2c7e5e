// The cost under the pile of layers that the cases are about: stop over band over weights.
ghost use Rattle.std.specs.Prelude.{◌≡◌};
ghost use Rattle.penalty.specs.Layers.{weighted, banded, stopped};
ghost use Rattle.penalty.specs.Question.{asked};

use penalty::{Layers, Penalty, Question};

/// The cost of a question under stop over band over weights over a penalty.
pub fn pile_cost<P: Penalty + Drop>(below: P, layers: Layers, question: Question) -> u64
    ensures { result ≡ asked (stopped layers.stop.limit (banded layers.band.tolerance (weighted layers.weights.by_channel (P.cost below)))) question }
{
    layers.over(below).cost(question)
}
