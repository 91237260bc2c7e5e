// The calls that make lists over memory that the caller lends: list at a bound, and best.
ghost use Rattle.std.specs.Prelude.{◌≡◌, ◌<◌, ◌≤◌, length, sum, drop, OnOk};
ghost use Rattle.sequencing.specs.Answers.{IsBest, IsListed, Shows, ShowsBest};
ghost use Rattle.sequencing.specs.Memory.{IsCut, memory};
ghost use Rattle.sequencing.specs.Refusals.{MayRefuse, best_refused, list_refused, number};

use crate::answer::{Best, Listed, Outcome};
use crate::refusal::Refusal;
use crate::search::search;
use crate::sequence::sequence;
use limits::CHANNELS;
use matching::{Ready, Window};
use penalty::{Penalty, TOP};
use round::Readings;

/// The list of the rules at a bound, or why no list is within it. After a list the first window places hold the windows
/// with their slots, by channel and then reading, and the first list bytes the channels in slot order; after a block
/// these places and bytes are free. The first 64 ready places are free. Refused, it changes nothing.
pub fn list<P: Penalty>(
    penalty: &P,
    readings: &Readings,
    bound: u64,
    windows: &mut [Window],
    ready: &mut [Ready],
    list: &mut [u8],
) -> Result<Listed, Refusal>
    ensures { MayRefuse (list_refused readings.now.by_channel bound (length windows.old) (length ready.old) (length list.old))
        (IsListed (P.cost penalty.now) readings.now.by_channel bound
        (memory windows.old ready.old list.old) (memory windows.new ready.new list.new))
        number (memory windows.new ready.new list.new ≡ memory windows.old ready.old list.old) result }
{
    check(readings, bound, windows, ready, list)?;
    let total = usize::from(readings.total());
    let (windows, list) = (&mut windows[..total], &mut list[..total]);
    Ok(list_within(penalty, readings, bound, windows, ready, list))
}

/// The least bound at which there is a list, with that list and the block at the bound below; or none, and the block one
/// below the forbidden cost. The memory is left as by list at the least, or one below the forbidden cost. Refused, it
/// changes nothing.
pub fn best<P: Penalty>(
    penalty: &P,
    readings: &Readings,
    windows: &mut [Window],
    ready: &mut [Ready],
    list: &mut [u8],
) -> Result<Best, Refusal>
    ensures { MayRefuse (best_refused readings.now.by_channel (length windows.old) (length ready.old) (length list.old))
        (IsBest (P.cost penalty.now) readings.now.by_channel
        (memory windows.old ready.old list.old) (memory windows.new ready.new list.new))
        number (memory windows.new ready.new list.new ≡ memory windows.old ready.old list.old) result }
{
    // The bound that is tried first, and the largest of all.
    check(readings, TOP - 1, windows, ready, list)?;
    let total = usize::from(readings.total());
    let (windows, list) = (&mut windows[..total], &mut list[..total]);
    let outcome = least_list(penalty, readings, windows, ready, list);
    Ok(Best {
        total: readings.total(),
        channels: readings.channels(),
        outcome,
    })
}

// Refuses readings of no channel, a bound that is forbidden, and too little memory.
fn check(
    readings: &Readings,
    bound: u64,
    windows: &[Window],
    ready: &[Ready],
    list: &[u8],
) -> Result<(), Refusal>
    ensures refused { MayRefuse (list_refused readings.now.by_channel bound (length windows.now) (length ready.now) (length list.now))
        (λ _. Unit) number Unit result }
    ensures room { OnOk result ((0 < sum readings.now.by_channel) × (sum readings.now.by_channel ≤ length windows.now)
        × (64 ≤ length ready.now) × (sum readings.now.by_channel ≤ length list.now)) }
{
    let total = usize::from(readings.total());
    if total == 0 {
        return Err(Refusal::NoChannel);
    }
    if bound >= TOP {
        return Err(Refusal::BoundAboveLimit);
    }
    if windows.len() < total || ready.len() < CHANNELS || list.len() < total {
        return Err(Refusal::TooLittleMemory);
    }
    Ok(())
}

// The list at a bound, in memory that is as long as the round, and with enough ready places.
fn list_within<P: Penalty>(
    penalty: &P,
    readings: &Readings,
    bound: u64,
    windows: &mut [Window],
    ready: &mut [Ready],
    list: &mut [u8],
) -> Listed
    requires { IsCut (sum readings.now.by_channel) (memory windows.old ready.old list.old) }
    ensures ready { drop 64 ready.new ≡ drop 64 ready.old }
    ensures shown { Shows (P.cost penalty.now) readings.now.by_channel bound windows.new list.new result }
{
    match sequence(penalty, readings, bound, windows, ready, list) {
        Ok(()) => Listed::Within,
        Err(block) => Listed::Over(block),
    }
}

// The least bound, and the list there, in such memory.
fn least_list<P: Penalty>(
    penalty: &P,
    readings: &Readings,
    windows: &mut [Window],
    ready: &mut [Ready],
    list: &mut [u8],
) -> Outcome
    requires some { 0 < sum readings.now.by_channel }
    requires cut { IsCut (sum readings.now.by_channel) (memory windows.old ready.old list.old) }
    ensures ready { drop 64 ready.new ≡ drop 64 ready.old }
    ensures shown { ShowsBest (P.cost penalty.now) readings.now.by_channel windows.new list.new result }
{
    let outcome = search(penalty, readings, windows, ready, list);
    if let Outcome::Least { least, .. } = outcome {
        // The last bound tried may be another one; there is a list at this one.
        sequence(penalty, readings, least, windows, ready, list).unwrap();
    }
    outcome
}
