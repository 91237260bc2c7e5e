// The list of the rules at a bound: windows from the penalty, slots from the matching, and the channels in slot order.
ghost use Rattle.std.specs.Prelude.{◌≡◌, ℕ, ◌-◌, ◌<◌, ◌≤◌, length, sum, drop, slice_index, OnOk, IfErr};
ghost use Rattle.matching.specs.Matchings.{IsCrowd, Placement};
ghost use Rattle.matching.specs.declared.answer.Crowd.{Crowd};
ghost use Rattle.sequencing.specs.declared.answer.Block.TheVariants.{Crowded};
ghost use Rattle.matching.specs.Windows.{Arranged, blank, channel_at, slot_at};
ghost use Rattle.sequencing.specs.Memory.{IsCut, memory};
ghost use Rattle.sequencing.specs.Sequences.{IsBlock, IsSequence};
ghost use Rattle.windows.specs.Filling.{AreOpen};

use crate::answer::Block;
use matching::{Ready, Unplaced, Window, place};
use penalty::Penalty;
use round::Readings;
use windows::{Unfilled, fill};

// Puts the windows of all readings at a bound into the window places, or finds a block among them.
fn open_windows<P: Penalty>(
    penalty: &P,
    readings: &Readings,
    bound: u64,
    windows: &mut [Window],
) -> Result<(), Block>
    requires { length windows.old ≡ sum readings.now.by_channel }
    ensures filled { OnOk result (AreOpen (P.cost penalty.now) readings.now.by_channel bound windows.new) }
    ensures block { IfErr result (IsBlock (P.cost penalty.now) readings.now.by_channel bound) }
{
    match fill(penalty, readings, bound, windows) {
        Ok(()) => Ok(()),
        Err(Unfilled::Blocked(moment)) => Err(Block::Blocked(moment)),
        Err(Unfilled::Shut(window)) => Err(Block::Shut(window)),
        // There are as many places as readings.
        Err(Unfilled::Places) => unreachable!(),
    }
}

// Gives every reading a slot by Glover's rule, or finds crowded slots.
fn place_readings(windows: &mut [Window], ready: &mut [Ready]) -> Result<(), Block>
    requires ready { 64 ≤ length ready.old }
    requires windows { Arranged windows.old }
    ensures windows { blank windows.new ≡ blank windows.old }
    ensures ready { drop 64 ready.new ≡ drop 64 ready.old }
    ensures placed { OnOk result (Arranged windows.old × Placement windows.new) }
    ensures block { IfErr result (λ block. (crowd : Crowd) × (block ≡ Crowded crowd) × IsCrowd windows.old crowd) }
{
    match place(windows, ready) {
        Ok(()) => Ok(()),
        Err(Unplaced::Crowded(crowd)) => Err(Block::Crowded(crowd)),
        // There are enough ready places, and the windows are arranged.
        Err(Unplaced::ReadyPlaces | Unplaced::Windows) => unreachable!(),
    }
}

// Puts the channel of each window into the slot that the window has.
fn write_list(windows: &[Window], list: &mut [u8])
    requires long { length list.old ≡ length windows.now }
    requires slots { (i : ℕ) → i < length windows.now →
        (1 ≤ slot_at windows.now i) × (slot_at windows.now i ≤ length windows.now) }
    requires apart { (i j : ℕ) → i < length windows.now → j < length windows.now →
        slot_at windows.now i ≡ slot_at windows.now j → i ≡ j }
    ensures channels { (i : ℕ) → i < length windows.now →
        slice_index list.new (slot_at windows.now i - 1) ≡ channel_at windows.now i }
{
    for window in windows {
        list[usize::from(window.slot) - 1] = window.channel;
    }
}

// The list of the rules at a bound, with the windows and their slots; or why there is none.
pub(crate) fn sequence<P: Penalty>(
    penalty: &P,
    readings: &Readings,
    bound: u64,
    windows: &mut [Window],
    ready: &mut [Ready],
    list: &mut [u8],
) -> Result<(), Block>
    requires { IsCut (sum readings.now.by_channel) (memory windows.old ready.old list.old) }
    ensures ready { drop 64 ready.new ≡ drop 64 ready.old }
    ensures list { OnOk result (IsSequence (P.cost penalty.now) readings.now.by_channel bound windows.new list.new) }
    ensures block { IfErr result (IsBlock (P.cost penalty.now) readings.now.by_channel bound) }
{
    open_windows(penalty, readings, bound, windows)?;
    place_readings(windows, ready)?;
    write_list(windows, list);
    Ok(())
}
