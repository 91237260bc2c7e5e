// What an audit answers, as lines show it.
ghost use Rattle.std.specs.Prelude.{◌≡◌, ◌+◌, ◌≤◌, ◌++◌};
ghost use Rattle.arrayvec.specs.ArrayVec.{array_vec_len};
ghost use Rattle.lines.specs.Lines.{audited_text};

use crate::text::{Text, push_field};

/// The answer of an audit.
#[derive(Clone, Copy, PartialEq, Eq, Debug)]
pub enum Audited {
    /// The largest cost, with its moment.
    Largest { cost: u64, slot: u16, channel: u8 },
    /// It is refused.
    Refused { number: u8 },
    /// It is refused, and for which slot.
    RefusedSlot { number: u8, slot: u16 },
    /// It is refused, and for which channel.
    RefusedChannel { number: u8, channel: u8 },
}

impl Audited {
    // Appends the answer to an empty text.
    pub(crate) fn push(self, text: &mut Text)
        requires { array_vec_len text.old ≡ 0 }
        ensures bytes { text.new.items ≡ text.old.items ++ audited_text self }
        ensures long { array_vec_len text.new ≤ 95 }
    {
        match self {
            Audited::Largest {
                cost,
                slot,
                channel,
            } => {
                push_field::<20>(text, "LARGEST ", cost);
                push_field::<5>(text, " MOMENT ", u64::from(slot));
                push_field::<3>(text, " ", u64::from(channel));
            }
            Audited::Refused { number } => push_field::<3>(text, "REFUSED ", u64::from(number)),
            Audited::RefusedSlot { number, slot } => {
                push_field::<3>(text, "REFUSED ", u64::from(number));
                push_field::<5>(text, " SLOT ", u64::from(slot));
            }
            Audited::RefusedChannel { number, channel } => {
                push_field::<3>(text, "REFUSED ", u64::from(number));
                push_field::<3>(text, " CHANNEL ", u64::from(channel));
            }
        }
    }
}
