// The lines of readings in the order of their slots.
ghost use Rattle.std.specs.Prelude.{◌≡◌, length};
ghost use Rattle.listing.specs.Rows.{AreRows, HasSlots};

use crate::answers::reading_line;
use lines::Line;
use matching::Window;

// Puts the line of each window into the row of its slot.
pub(crate) fn put_rows(windows: &[Window], rows: &mut [Line])
    requires slots { HasSlots windows.now }
    requires long { length rows.old ≡ length windows.now }
    ensures { AreRows windows.now rows.new }
{
    for window in windows {
        rows[usize::from(window.slot) - 1] = reading_line(window);
    }
}
