// Writing and reading the slots that stand in the window records.
ghost use Rattle.std.specs.Prelude.{◌≡◌, ◌<◌, ◌≤◌, length, slice_set};
ghost use Rattle.matching.specs.Matchings.{inside};
ghost use Rattle.matching.specs.States.{LastMovable};
ghost use Rattle.matching.specs.Windows.{blank, window, with_slot};

use crate::window::Window;

// Takes the slot of every reading away: 0, before the first slot, is none while slots are given.
pub(crate) fn clear_slots(windows: &mut [Window])
    ensures { windows.new ≡ blank windows.old }
{
    for window in windows.iter_mut() {
        window.slot = 0;
    }
}

// Gives the reading at a place its slot.
pub(crate) fn set_slot(windows: &mut [Window], place: u16, slot: u16)
    requires { place < length windows.old }
    ensures { windows.new ≡ slice_set windows.old place (with_slot (window windows.old place) slot) }
{
    windows[usize::from(place)].slot = slot;
}

// The last slot up to `latest` whose reading could also stand after `latest`, 0 where there is none.
// A number: the slot after it is where a crowd begins, slot 1 where there is none.
pub(crate) fn last_movable(windows: &[Window], latest: u16) -> u16
    ensures { LastMovable windows.now latest result }
{
    windows
        .iter()
        .filter(|window| window.latest > latest && window.slot <= latest)
        .map(|window| window.slot)
        .max()
        .unwrap_or(0)
}

// How many windows lie wholly inside the slots `first` to `last`.
pub(crate) fn count_inside(windows: &[Window], first: u16, last: u16) -> u16
    requires { length windows.now ≤ 4096 }
    ensures { result ≡ inside first last windows.now }
{
    windows
        .iter()
        .filter(|window| first <= window.earliest && window.latest <= last)
        .count() as u16
}
