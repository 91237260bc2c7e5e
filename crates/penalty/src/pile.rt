// The pile of layers that the programs put over a bottom: stop over band over weights.
ghost use Rattle.std.specs.Prelude.{◌≡◌, replicate};

use crate::band::Band;
use crate::layer::Layered;
use crate::stop::Stop;
use crate::threshold::Threshold;
use crate::weights::Weights;

/// The three layers with their settings.
#[derive(Clone, Copy)]
pub struct Layers {
    pub weights: Weights,
    pub band: Band,
    pub stop: Stop,
}

/// Stop over band over weights over a bottom.
pub type Pile<P> = Layered<Layered<Layered<P, Weights>, Band>, Stop>;

impl Layers {
    /// Every weight 1, no tolerance, and the largest limit: the cost is that of the bottom.
    pub fn new() -> Layers
        ensures weights { result.weights.by_channel ≡ replicate 64 1 }
        ensures tolerance { result.band.tolerance ≡ 0 }
        ensures limit { result.stop.limit ≡ 16777216 }
    {
        Layers {
            weights: Weights::new(),
            band: Band {
                tolerance: Threshold::LEAST,
            },
            stop: Stop {
                limit: Threshold::LARGEST,
            },
        }
    }

    /// The pile of these layers over a bottom.
    pub fn over<P>(self, bottom: P) -> Pile<P>
        ensures bottom { result.below.below.below ≡ bottom }
        ensures weights { result.below.below.layer ≡ self.weights }
        ensures band { result.below.layer ≡ self.band }
        ensures stop { result.layer ≡ self.stop }
    {
        let weighted = Layered::over(bottom, self.weights);
        let banded = Layered::over(weighted, self.band);
        Layered::over(banded, self.stop)
    }
}
