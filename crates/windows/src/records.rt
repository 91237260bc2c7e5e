// The window records of one channel.
ghost use Rattle.std.specs.Prelude.{◌≡◌, ℕ, ◌+◌, ◌-◌, ◌≤◌, length, take, drop};
ghost use Rattle.matching.specs.Windows.{window};
ghost use Rattle.round.specs.Lists.{readings as d_of};
ghost use Rattle.windows.specs.Filling.{IsRecord};
ghost use Rattle.windows.specs.CountLimits.{AreCountLimits};
ghost use Rattle.windows.specs.Windows.{Reading};

use crate::allowed::Counts;
use crate::count_limits::CountLimits;
use matching::Window;
use penalty::Penalty;

impl<'a, P: Penalty> Counts<'a, P> {
    // Puts the windows of the channel's readings into its places, from `start` on.
    pub(crate) fn fill_channel(&self, limits: &CountLimits, places: &mut [Window], start: usize)
        requires room { start + d_of self.now.table.now.by_channel self.now.channel ≤ length places.old }
        requires limits { AreCountLimits (P.cost self.now.penalty.now) self.now.table.now.by_channel self.now.bound
            self.now.channel limits.now.fewest limits.now.most }
        ensures filled { (j : ℕ) → Reading self.now.table.now.by_channel self.now.channel j →
            IsRecord (P.cost self.now.penalty.now) self.now.table.now.by_channel self.now.bound self.now.channel j
            (window places.new (start + (j - 1))) }
        ensures before { take start places.new ≡ take start places.old }
        ensures after { drop (start + d_of self.now.table.now.by_channel self.now.channel) places.new
            ≡ drop (start + d_of self.now.table.now.by_channel self.now.channel) places.old }
    {
        // By number: a reading's place and its number go on together.
        for before in 0..self.readings() {
            places[start + usize::from(before)] = self.record(limits, before + 1);
        }
    }

    // The record of a reading with its window, without a slot.
    fn record(&self, limits: &CountLimits, reading: u16) -> Window
        requires limits { AreCountLimits (P.cost self.now.penalty.now) self.now.table.now.by_channel self.now.bound
            self.now.channel limits.now.fewest limits.now.most }
        requires reading { Reading self.now.table.now.by_channel self.now.channel reading }
        ensures { IsRecord (P.cost self.now.penalty.now) self.now.table.now.by_channel self.now.bound
            self.now.channel reading result }
    {
        let (earliest, latest) = self.window(limits, reading);
        Window {
            channel: self.channel,
            reading,
            earliest,
            latest,
            slot: 0,
        }
    }
}
