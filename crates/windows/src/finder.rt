// The window of one reading.
ghost use Rattle.std.specs.Prelude.{◌≡◌, ◌≤◌, length};
ghost use Rattle.windows.specs.CountLimits.{AreCountLimits, Parted, PartsAt};
ghost use Rattle.windows.specs.Windows.{IsWindow, Reading};

use crate::allowed::Counts;
use crate::count_limits::{CountLimits, MOMENTS};
use penalty::Penalty;

impl<'a, P: Penalty> Counts<'a, P> {
    // Finds the window of a reading: its earliest and its latest slot. The slots by which it may not stand come
    // first, and their number is its earliest slot, unless there are none; the slots by which it is not needed
    // come first as well, and their number is its latest slot, unless they are all.
    pub(crate) fn window(&self, limits: &CountLimits, reading: u16) -> (u16, u16)
        requires limits { AreCountLimits (P.cost self.now.penalty.now) self.now.table.now.by_channel self.now.bound
            self.now.channel limits.now.fewest limits.now.most }
        requires reading { Reading self.now.table.now.by_channel self.now.channel reading }
        ensures { IsWindow (P.cost self.now.penalty.now) self.now.table.now.by_channel self.now.bound
            self.now.channel reading result }
    {
        let slots = self.table.total();
        let earliest = slots_below(&limits.most, slots, reading).max(1);
        let latest = slots_below(&limits.fewest, slots, reading).min(slots);
        (earliest, latest)
    }
}

// How many of the slots from 0 to `slots` have a count below `reading`, where those come first.
fn slots_below(counts: &[u16; MOMENTS], slots: u16, reading: u16) -> u16
    requires few { slots ≤ 4096 }
    requires parted { Parted counts.now slots reading }
    ensures { PartsAt counts.now slots reading result }
{
    counts[..=usize::from(slots)].partition_point(|&count| count < reading) as u16
}
