// A moment of a list with what it costs, and the order of moments from the cheapest to the dearest.
ghost use Rattle.round.specs.Dearest.{no_dearer};
ghost use Rattle.round.specs.Order.{total, transitive};

use heap::Ordered;

/// A moment of a list, and what it costs.
#[derive(Clone, Copy, PartialEq, Eq, Debug, Default)]
pub struct CostedMoment {
    /// What the moment costs.
    pub cost: u64,
    /// The slot after which the count is taken, 0 before the first.
    pub slot: u16,
    /// The channel that is counted.
    pub channel: u8,
}

/// The cheaper of two moments comes first. Of equal costs the one with the greater slot is cheaper, and after the same slot the one
/// with the greater channel.
impl Ordered for CostedMoment {
    ghost leq = { no_dearer };

    ghost total = { total };

    ghost transitive = { transitive };

    fn leq(&self, other: &CostedMoment) -> bool {
        (self.cost, other.slot, other.channel) <= (other.cost, self.slot, self.channel)
    }
}
