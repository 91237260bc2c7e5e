// The call that matches windows to slots.
ghost use Rattle.std.specs.Prelude.{◌≡◌, ◌≤◌, length, drop, OnOk, IfErr};
ghost use Rattle.matching.specs.Matchings.{Placement, OnlyPlacement, IsReason};
ghost use Rattle.matching.specs.Windows.{Arranged, blank};

use crate::answer::Unplaced;
use crate::arranged::is_arranged;
use crate::ready::Ready;
use crate::round::Round;
use crate::window::Window;
use heap::Heap;
use limits::CHANNELS;

/// Gives every reading a slot of its window, in a round of as many slots as there are windows, or
/// shows slots that are too crowded for that; then the slot fields are free. It refuses fewer than
/// 64 ready places, and windows that are not arranged, and changes nothing then. Only slot fields are
/// written, and of `ready` the first 64 places.
pub fn place(windows: &mut [Window], ready: &mut [Ready]) -> Result<(), Unplaced>
    ensures windows { blank windows.new ≡ blank windows.old }
    ensures ready { drop 64 ready.new ≡ drop 64 ready.old }
    ensures placed { OnOk result ((64 ≤ length ready.old) × Arranged windows.old × Placement windows.new × OnlyPlacement windows.new) }
    ensures unplaced { IfErr result (IsReason windows.old ready.old windows.new ready.new) }
{
    if ready.len() < CHANNELS {
        return Err(Unplaced::ReadyPlaces);
    }
    if !is_arranged(windows) {
        return Err(Unplaced::Windows);
    }
    let mut heap = Heap::new(ready);
    let mut round = Round::new(windows);
    // By number, since each slot is filled after those before it.
    for filled in 0..round.slots() {
        round.fill_next(&mut heap, filled)?;
    }
    Ok(())
}
