// Which counts of a channel a bound allows.
ghost use Rattle.std.specs.Prelude.{◌≡◌, ◌≤◌, ◌↔◌, IsTrue};
ghost use Rattle.round.specs.Lists.{readings as d_of};
ghost use Rattle.windows.specs.Allowed.{Allowed};
ghost use Rattle.windows.specs.CountLimits.{HighestBelow, LowestAbove};

use penalty::{Penalty, Question};
use round::Readings;

// The counts of one channel, at a bound.
#[derive(Clone, Copy)]
pub(crate) struct Counts<'a, P> {
    pub(crate) penalty: &'a P,
    pub(crate) table: &'a Readings,
    pub(crate) bound: u64,
    pub(crate) channel: u8,
}

impl<'a, P: Penalty> Counts<'a, P> {
    // How many readings the channel has.
    pub(crate) fn readings(&self) -> u16
        ensures { result ≡ d_of self.now.table.now.by_channel self.now.channel }
    {
        self.table.of(self.channel)
    }

    // Whether a count is allowed after a slot.
    pub(crate) fn allows(&self, slot: u16, count: u16) -> bool
        requires { count ≤ d_of self.now.table.now.by_channel self.now.channel }
        ensures { IsTrue result ↔
            Allowed (P.cost self.now.penalty.now) self.now.table.now.by_channel self.now.bound slot self.now.channel count }
    {
        let cost = self.penalty.cost(Question {
            slots: self.table.total(),
            channel: self.channel,
            readings: self.readings(),
            count,
            slot,
        });
        cost <= self.bound
    }

    // The smallest allowed count above `count`.
    // A `for` and no `find`, as in the search that goes down (docs/DECISIONS.md).
    pub(crate) fn lowest_above(&self, slot: u16, count: u16) -> Option<u16>
        requires { count ≤ d_of self.now.table.now.by_channel self.now.channel }
        ensures { LowestAbove (P.cost self.now.penalty.now) self.now.table.now.by_channel self.now.bound
            slot self.now.channel count result }
    {
        for above in count + 1..=self.readings() {
            if self.allows(slot, above) {
                return Some(above);
            }
        }
        None
    }

    // The greatest allowed count below `count`.
    pub(crate) fn highest_below(&self, slot: u16, count: u16) -> Option<u16>
        requires { count ≤ d_of self.now.table.now.by_channel self.now.channel }
        ensures { HighestBelow (P.cost self.now.penalty.now) self.now.table.now.by_channel self.now.bound
            slot self.now.channel count result }
    {
        for below in (0..count).rev() {
            if self.allows(slot, below) {
                return Some(below);
            }
        }
        None
    }
}
