// The check that windows stand as the matching takes them.
ghost use Rattle.std.specs.Prelude.{◌≡◌, ◌↔◌, ℕ, ◌+◌, ◌<◌, IsTrue, length};
ghost use Rattle.matching.specs.Windows.{Arranged, Usable, Follows, window};

use crate::window::Window;
use limits::{CHANNELS, LIMIT};

// Whether the matching can take the windows.
pub(crate) fn is_arranged(windows: &[Window]) -> bool
    ensures { IsTrue result ↔ Arranged windows.now }
{
    windows.len() <= usize::from(LIMIT) && all_usable(windows) && all_follow(windows)
}

// Whether every window is usable in a round of as many slots as there are windows.
fn all_usable(windows: &[Window]) -> bool
    ensures { IsTrue result ↔ ((i : ℕ) → i < length windows.now → Usable (length windows.now) (window windows.now i)) }
{
    windows
        .iter()
        .all(|window| is_usable(window, windows.len()))
}

// Whether every record but the first may stand right after the one before it.
fn all_follow(windows: &[Window]) -> bool
    ensures { IsTrue result ↔ ((i : ℕ) → i + 1 < length windows.now → Follows (window windows.now i) (window windows.now (i + 1))) }
{
    windows.is_sorted_by(follows)
}

// Whether a window is that of a channel number, is not shut, and lies in a round of `slots` slots.
fn is_usable(window: &Window, slots: usize) -> bool
    ensures { IsTrue result ↔ Usable slots window.now }
{
    usize::from(window.channel) < CHANNELS
        && 1 <= window.earliest
        && window.earliest <= window.latest
        && usize::from(window.latest) <= slots
}

// Whether the second record may stand right after the first.
fn follows(before: &Window, after: &Window) -> bool
    ensures { IsTrue result ↔ Follows before.now after.now }
{
    before.channel < after.channel
        || (before.channel == after.channel
            && before.reading < after.reading
            && before.earliest <= after.earliest
            && before.latest <= after.latest)
}
