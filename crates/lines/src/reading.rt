// A reading with its slot, as lines show it.
ghost use Rattle.std.specs.Prelude.{◌≡◌, ◌+◌, ◌≤◌, ◌++◌};
ghost use Rattle.arrayvec.specs.ArrayVec.{array_vec_len};
ghost use Rattle.lines.specs.Lines.{reading_text};

use crate::text::{Text, push_field};

/// A reading of a channel, its window, and the slot that it stands in.
#[derive(Clone, Copy, PartialEq, Eq, Debug)]
pub struct Reading {
    /// The channel that is read.
    pub channel: u8,
    /// Which of its readings this is, from 1.
    pub reading: u16,
    /// The first slot that it may stand in.
    pub earliest: u16,
    /// The last slot that it may stand in.
    pub latest: u16,
    /// The slot that it stands in.
    pub slot: u16,
}

impl Reading {
    // Appends the reading to an empty text.
    pub(crate) fn push(self, text: &mut Text)
        requires { array_vec_len text.old ≡ 0 }
        ensures bytes { text.new.items ≡ text.old.items ++ reading_text self }
        ensures long { array_vec_len text.new ≤ 29 }
    {
        push_field::<3>(text, "", u64::from(self.channel));
        push_field::<5>(text, " ", u64::from(self.reading));
        push_field::<5>(text, " ", u64::from(self.earliest));
        push_field::<5>(text, " ", u64::from(self.latest));
        push_field::<5>(text, " ", u64::from(self.slot));
    }
}
