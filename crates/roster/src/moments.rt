// What the moments of a list cost on a roster: the audit, and the dearest moments.
ghost use Rattle.std.specs.Prelude.{◌≡◌, length};
ghost use Rattle.round.specs.Audit.{Audited};
ghost use Rattle.round.specs.Dearest.{DearestAreOne, FillsDearest};

use crate::roster::Roster;
use heap::Heap;
use penalty::Penalty;
use round::CostedMoment;

impl<P: Penalty> Roster<P> {
    /// The largest cost of a list of the channels, and the first moment that has it.
    pub fn audit(&self, list: &[u8]) -> Result<CostedMoment, round::Refusal>
        ensures { Audited (P.cost self.now.penalty) self.now.readings.by_channel list.now result }
    {
        self.readings.audit(&self.penalty, list)
    }

    /// Fills a heap with the dearest moments of a list of the channels, as many as it has places for. Which they are, and in which
    /// order they come out, is settled by the order of `CostedMoment`. What it kept before is given up. Refused, it changes nothing.
    pub fn dearest(
        &self,
        list: &[u8],
        heap: &mut Heap<'_, CostedMoment>,
    ) -> Result<(), round::Refusal>
        ensures named { heap.new.items.ghost_name ≡ heap.old.items.ghost_name }
        ensures long { length heap.new.items.now ≡ length heap.old.items.now }
        ensures dearest { FillsDearest (P.cost self.now.penalty) self.now.readings.by_channel list.now
            heap.old.items.now heap.old.len heap.new.items.now heap.new.len result }
        ensures one { DearestAreOne (P.cost self.now.penalty) self.now.readings.by_channel list.now (length heap.old.items.now) }
    {
        self.readings.dearest(&self.penalty, list, heap)
    }
}
