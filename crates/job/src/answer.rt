// What the records of a job are answered with.
use sequencing::{Best, Block};

/// What a record is answered with that is not refused.
#[derive(Clone, Copy, PartialEq, Eq, Debug)]
pub enum Answer {
    /// A channel is added, or a layer is set.
    Done,
    /// A list is within the bound: it stands in the memory that was lent, with its windows and slots.
    Within {
        /// The bound.
        bound: u64,
        /// The largest cost of the list.
        largest: u64,
        /// How many readings, and so how many slots, the round has.
        total: u16,
    },
    /// No list is within the bound, and why.
    Over {
        /// The bound.
        bound: u64,
        /// Why.
        block: Block,
    },
    /// The least bound that has a list.
    Best(Best),
}
