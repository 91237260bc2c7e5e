// A window record that no reading has, and the check of a crowded interval by counting.
ghost use Rattle.std.specs.Prelude.{◌↔◌, IsTrue};
ghost use Rattle.matching.specs.Matchings.{IsCrowd};

use matching::{Crowd, Window};

/// A record that no reading has.
pub const EMPTY: Window = Window {
    channel: u8::MAX,
    reading: 0,
    earliest: 0,
    latest: 0,
    slot: u16::MAX,
};

/// Whether more windows lie wholly inside the named slots of the round than there are slots, and as many as is said.
pub fn is_crowded(windows: &[Window], crowd: Crowd) -> bool
    ensures { IsTrue result ↔ IsCrowd windows.now crowd }
{
    let inside = windows
        .iter()
        .filter(|window| crowd.first <= window.earliest && window.latest <= crowd.last)
        .count();
    1 <= crowd.first
        && crowd.first <= crowd.last
        && usize::from(crowd.last) <= windows.len()
        && usize::from(crowd.number) == inside
        && inside > usize::from(crowd.last - crowd.first) + 1
}
