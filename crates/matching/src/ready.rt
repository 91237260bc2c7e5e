// A reading that is ready to be placed, and the order in which ready readings are due.
ghost use Rattle.std.specs.Prelude.{◌<◌, ◌≤◌, MatchBool};
ghost use Rattle.matching.specs.Ready.{may_precede};
ghost use Rattle.std.proofs.Common.{rules};
ghost use Rattle.std.specs.Cmp.Rules.{comparing};

use heap::Ordered;

/// A reading that is not placed yet and whose earliest has come.
#[derive(Clone, Copy, PartialEq, Eq, PartialOrd, Ord, Debug, Default)]
pub struct Ready {
    /// The last slot that it may stand in.
    pub latest: u16,
    /// Where its window stands among the windows, from 0.
    pub place: u16,
}

impl Ready {
    // Whether its latest is before a slot.
    pub(crate) fn is_late(self, slot: u16) -> bool
        ensures { MatchBool result (self.latest < slot) (slot ≤ self.latest) }
    {
        self.latest < slot
    }
}

/// Ready readings are due by their latest, and at the same latest by their place.
impl Ordered for Ready {
    ghost leq = { may_precede };

    ghost total = { Prim.search (comparing, rules) };

    ghost transitive = { Prim.search (comparing, rules) };

    fn leq(&self, other: &Ready) -> bool {
        self <= other
    }
}
