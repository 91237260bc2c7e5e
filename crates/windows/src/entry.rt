// The call that puts the windows of all readings into the places of the matching.
ghost use Rattle.std.specs.Prelude.{◌≡◌, ◌<◌, ◌≤◌, length, sum, take, drop, OnOk, IfErr, IfSome};
ghost use Rattle.windows.specs.Allowed.{FirstBlocked, NoneBlocked};
ghost use Rattle.windows.specs.Filling.{AreOpen, AreWindows, IsReason};
ghost use Rattle.windows.specs.CountLimits.{FirstOfBoth, FirstShutIn};

use crate::allowed::Counts;
use crate::answer::{Moment, Unfilled};
use crate::count_limits::{CountLimits, MOMENTS};
use limits::CHANNELS;
use matching::Window;
use penalty::Penalty;
use round::Readings;

/// Puts the windows of all readings at a bound into places for the matching, by channel and then reading, without
/// slots; or answers why not: too few places, the first blocked moment, or the first shut window. No more places are
/// written than there are readings.
pub fn fill<P: Penalty>(
    penalty: &P,
    table: &Readings,
    bound: u64,
    places: &mut [Window],
) -> Result<(), Unfilled>
    ensures rest { drop (sum table.now.by_channel) places.new ≡ drop (sum table.now.by_channel) places.old }
    ensures filled { OnOk result ((sum table.now.by_channel ≤ length places.old)
        × AreOpen (P.cost penalty.now) table.now.by_channel bound (take (sum table.now.by_channel) places.new)) }
    ensures unfilled { IfErr result (IsReason (P.cost penalty.now) table.now.by_channel bound places.old places.new) }
{
    let total = usize::from(table.total());
    if places.len() < total {
        return Err(Unfilled::Places);
    }
    fill_channels(penalty, table, bound, places)?;
    match first_shut(&places[..total]) {
        Some(window) => Err(Unfilled::Shut(window)),
        None => Ok(()),
    }
}

// Puts the windows into the places, channel after channel, or finds the first blocked moment.
fn fill_channels<P: Penalty>(
    penalty: &P,
    table: &Readings,
    bound: u64,
    places: &mut [Window],
) -> Result<(), Moment>
    requires { sum table.now.by_channel ≤ length places.old }
    ensures rest { drop (sum table.now.by_channel) places.new ≡ drop (sum table.now.by_channel) places.old }
    ensures filled { OnOk result (NoneBlocked (P.cost penalty.now) table.now.by_channel bound
        × AreWindows (P.cost penalty.now) table.now.by_channel bound (take (sum table.now.by_channel) places.new)) }
    ensures blocked { IfErr result (λ m. FirstBlocked (P.cost penalty.now) table.now.by_channel bound m.slot m.channel) }
{
    let mut limits = CountLimits {
        fewest: [0; MOMENTS],
        most: [0; MOMENTS],
    };
    let mut blocked = None;
    let mut start = 0;
    for channel in 0..CHANNELS as u8 {
        let counts = Counts {
            penalty,
            table,
            bound,
            channel,
        };
        let readings = counts.readings();
        if readings > 0 {
            match counts.count_limits(&mut limits) {
                Ok(()) => counts.fill_channel(&limits, places, start),
                Err(slot) => blocked = Some(first_of_both(blocked, Moment { slot, channel })),
            }
        }
        start += usize::from(readings);
    }
    match blocked {
        Some(moment) => Err(moment),
        None => Ok(()),
    }
}

// The first of two moments: the next one, and maybe one of a smaller channel that was found before.
fn first_of_both(before: Option<Moment>, next: Moment) -> Moment
    requires { IfSome before (λ m. m.channel < next.channel) }
    ensures { FirstOfBoth before next result }
{
    match before {
        Some(found) if found.slot <= next.slot => found,
        _ => next,
    }
}

// The first record whose window is shut.
fn first_shut(windows: &[Window]) -> Option<Window>
    ensures { FirstShutIn windows.now result }
{
    windows
        .iter()
        .find(|window| window.latest < window.earliest)
        .copied()
}
