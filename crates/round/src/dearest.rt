// The dearest moments of a list, as many as a heap has places for.
ghost use Rattle.std.specs.Prelude.{◌≡◌, length, take};
ghost use Rattle.round.specs.Dearest.{AreDearest, DearestAreOne, FillsDearest};
ghost use Rattle.round.specs.Lists.{Sound, Complete};
ghost use Rattle.round.specs.Walk.{Offered};

use crate::costed_moment::CostedMoment;
use crate::counting::{count_slot, slot_at};
use crate::readings::Readings;
use crate::refusal::Refusal;
use crate::walk::Walk;
use heap::Heap;
use penalty::{CHANNELS, Penalty};

impl Readings {
    /// Fills a heap with the dearest moments of a list of these channels: as many as its memory has places, or all where they
    /// are fewer. The cheapest of them then comes out first. Which they are, and in which order they come out, is settled by the
    /// order of `CostedMoment`. What the heap kept before is given up. Refused, it changes nothing.
    pub fn dearest<P: Penalty>(
        &self,
        penalty: &P,
        list: &[u8],
        heap: &mut Heap<'_, CostedMoment>,
    ) -> Result<(), Refusal>
        ensures named { heap.new.items.ghost_name ≡ heap.old.items.ghost_name }
        ensures long { length heap.new.items.now ≡ length heap.old.items.now }
        ensures dearest { FillsDearest (P.cost penalty.now) self.now.by_channel list.now
            heap.old.items.now heap.old.len heap.new.items.now heap.new.len result }
        ensures one { DearestAreOne (P.cost penalty.now) self.now.by_channel list.now (length heap.old.items.now) }
    {
        self.check(list)?;
        heap.clear();
        offer_moments(penalty, self, list, heap);
        Ok(())
    }
}

// Counts the channels slot by slot, and offers the moments after each slot to a heap that keeps none.
fn offer_moments<'a, P: Penalty>(
    penalty: &'a P,
    readings: &'a Readings,
    list: &[u8],
    heap: &mut Heap<'_, CostedMoment>,
)
    requires sound { Sound readings.now.by_channel × Complete readings.now.by_channel list.now }
    requires none { heap.old.len ≡ 0 }
    ensures named { heap.new.items.ghost_name ≡ heap.old.items.ghost_name }
    ensures long { length heap.new.items.now ≡ length heap.old.items.now }
    ensures dearest { AreDearest (P.cost penalty.now) readings.now.by_channel list.now (length heap.old.items.now) (take heap.new.len heap.new.items.now) }
{
    let mut walk = Walk {
        penalty,
        readings,
        counts: [0; CHANNELS],
    };
    walk.offer(0, heap);
    for (i, &channel) in list.iter().enumerate() {
        count_slot(&mut walk.counts, channel);
        walk.offer(slot_at(i), heap);
    }
}

impl<'a, P: Penalty> Walk<'a, P> {
    // Offers the moments of all channels after a slot to a heap.
    fn offer(&self, slot: u16, heap: &mut Heap<'_, CostedMoment>)
        ensures named { heap.new.items.ghost_name ≡ heap.old.items.ghost_name }
        ensures long { length heap.new.items.now ≡ length heap.old.items.now }
        ensures offered { Offered (P.cost self.now.penalty.now) self.now.readings.now.by_channel self.now.counts slot
            (length heap.old.items.now) (take heap.old.len heap.old.items.now) (take heap.new.len heap.new.items.now) }
    {
        for channel in 0..CHANNELS as u8 {
            if self.readings.of(channel) > 0 {
                let cost = self.cost_after(slot, channel);
                heap.offer(CostedMoment {
                    cost,
                    slot,
                    channel,
                });
            }
        }
    }
}
