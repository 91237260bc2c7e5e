// The audit of a list: its largest cost, and the first moment that has it.
ghost use Rattle.std.specs.Prelude.{◌≡◌, ◌<◌, sum, slice_index};
ghost use Rattle.round.specs.Audit.{Audited, FirstLargest};
ghost use Rattle.round.specs.Lists.{Sound, Complete, readings as d_of};
ghost use Rattle.round.specs.Walk.{Scanned, larger_of};

use crate::costed_moment::CostedMoment;
use crate::counting::{count_slot, slot_at};
use crate::readings::Readings;
use crate::refusal::Refusal;
use penalty::{CHANNELS, Penalty, Question};

/// The largest cost of the list for the channels of the row, and the first moment that has it:
/// the smallest k, then the smallest channel.
pub fn audit<P: Penalty>(penalty: &P, row: &[u16], list: &[u8]) -> Result<CostedMoment, Refusal>
    ensures { Audited (P.cost penalty.now) row.now list.now result }
{
    let readings = Readings::try_from(row)?;
    readings.audit(penalty, list)
}

impl Readings {
    /// The largest cost of a list of these channels, and the first moment that has it.
    pub fn audit<P: Penalty>(&self, penalty: &P, list: &[u8]) -> Result<CostedMoment, Refusal>
        ensures { Audited (P.cost penalty.now) self.now.by_channel list.now result }
    {
        self.check(list)?;
        Ok(largest_cost(penalty, self, list))
    }
}

// Counts the channels slot by slot, and takes the costs after each slot.
fn largest_cost<'a, P: Penalty>(penalty: &'a P, readings: &'a Readings, list: &[u8]) -> CostedMoment
    requires { Sound readings.now.by_channel × Complete readings.now.by_channel list.now }
    ensures { FirstLargest (P.cost penalty.now) readings.now.by_channel list.now result }
{
    let mut walk = Walk {
        penalty,
        readings,
        counts: [0; CHANNELS],
    };
    let mut found = walk.scan(0, None);
    // A `for` with the place: the counts and the largest cost so far go on together.
    for (i, &channel) in list.iter().enumerate() {
        count_slot(&mut walk.counts, channel);
        found = walk.scan(slot_at(i), found);
    }
    found.unwrap()
}

// How far a walk over a list has come: how often each channel stands in the slots so far.
#[derive(Clone, Copy)]
pub(crate) struct Walk<'a, P> {
    pub(crate) penalty: &'a P,
    pub(crate) readings: &'a Readings,
    pub(crate) counts: [u16; CHANNELS],
}

impl<'a, P: Penalty> Walk<'a, P> {
    // Takes the cost of each channel after a slot into account, in the order of the channels.
    fn scan(&self, slot: u16, before: Option<CostedMoment>) -> Option<CostedMoment>
        ensures { Scanned (P.cost self.now.penalty.now) self.now.readings.now.by_channel self.now.counts slot before result }
    {
        let mut found = before;
        // By number, since three things are asked for by it; a `fold` would pass on the same two values.
        for channel in 0..CHANNELS as u8 {
            if self.readings.of(channel) > 0 {
                let cost = self.cost_after(slot, channel);
                let next = CostedMoment {
                    cost,
                    slot,
                    channel,
                };
                found = Some(larger(found, next));
            }
        }
        found
    }

    // What the count of a channel costs after a slot.
    // A byte and no type of its own for the channel: this and `count_slot` alone ask that it is below 64.
    pub(crate) fn cost_after(&self, slot: u16, channel: u8) -> u64
        requires { channel < 64 }
        ensures { result ≡ P.cost self.now.penalty.now (sum self.now.readings.now.by_channel) channel (d_of self.now.readings.now.by_channel channel) (slice_index self.now.counts channel) slot }
    {
        self.penalty.cost(Question {
            slots: self.readings.total(),
            channel,
            readings: self.readings.of(channel),
            count: self.counts[usize::from(channel)],
            slot,
        })
    }
}

// The larger of what was found before and the next; of equal costs the earlier stays.
fn larger(before: Option<CostedMoment>, next: CostedMoment) -> CostedMoment
    ensures { result ≡ larger_of before next }
{
    before
        .filter(|found| found.cost >= next.cost)
        .unwrap_or(next)
}
