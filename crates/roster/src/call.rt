// The calls on a roster, and what they answer.
ghost use Rattle.std.specs.Prelude.{◌≡◌, ◌+◌, ◌^◌, ◌<◌, ◌≤◌, MatchOption};
ghost use Rattle.roster.specs.Book.{lent_of};

use sequencing::{Best, Listed};

/// How much memory: how many places and bytes of each kind.
#[derive(Clone, Copy, PartialEq, Eq, Debug)]
pub struct Sizes {
    /// How many window places.
    pub windows: usize,
    /// How many ready places.
    pub ready: usize,
    /// How many list bytes.
    pub list: usize,
}

/// A call on a roster.
#[derive(Clone, Copy, PartialEq, Eq, Debug)]
pub enum Call {
    /// A channel that is not there gets readings.
    Add { channel: u8, readings: u16 },
    /// A channel that is there gets other readings.
    Change { channel: u8, readings: u16 },
    /// A channel that is there is removed.
    Remove { channel: u8 },
    /// The list at a bound.
    List { bound: u64, lent: Sizes },
    /// The least bound that has a list.
    Best { lent: Sizes },
}

/// What a call answers that is not refused.
#[derive(Clone, Copy, PartialEq, Eq, Debug)]
pub enum Answer {
    /// The channel is as the call says.
    Done,
    /// The answer of list.
    Listed(Listed),
    /// The answer of best.
    Best(Best),
}

impl Call {
    /// How much memory the call is lent: none where it makes no list.
    pub fn lent(self) -> Sizes
        ensures { result ≡ lent_of self }
    {
        match self {
            Call::List { lent, .. } | Call::Best { lent } => lent,
            Call::Add { .. } | Call::Change { .. } | Call::Remove { .. } => Sizes::NONE,
        }
    }
}

impl Sizes {
    /// No memory at all.
    pub const NONE: Sizes = Sizes {
        windows: 0,
        ready: 0,
        list: 0,
    };

    // This less what a call is lent; nothing where it is lent more of some kind.
    pub(crate) fn without(self, lent: Sizes) -> Option<Sizes>
        ensures { MatchOption result
            ((lent.windows ≤ self.windows) × (lent.ready ≤ self.ready) × (lent.list ≤ self.list) → ⊥)
            (λ left. (left.windows + lent.windows ≡ self.windows) × (left.ready + lent.ready ≡ self.ready)
            × (left.list + lent.list ≡ self.list)) }
    {
        Some(Sizes {
            windows: self.windows.checked_sub(lent.windows)?,
            ready: self.ready.checked_sub(lent.ready)?,
            list: self.list.checked_sub(lent.list)?,
        })
    }

    // The sum of this and what a call is lent.
    pub(crate) fn with(self, lent: Sizes) -> Sizes
        requires windows { self.windows + lent.windows < 2 ^ 64 }
        requires ready { self.ready + lent.ready < 2 ^ 64 }
        requires list { self.list + lent.list < 2 ^ 64 }
        ensures windows { result.windows ≡ self.windows + lent.windows }
        ensures ready { result.ready ≡ self.ready + lent.ready }
        ensures list { result.list ≡ self.list + lent.list }
    {
        Sizes {
            windows: self.windows + lent.windows,
            ready: self.ready + lent.ready,
            list: self.list + lent.list,
        }
    }
}
