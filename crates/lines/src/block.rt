// Why there is no list, as lines show it.
ghost use Rattle.std.specs.Prelude.{◌≡◌, ◌+◌, ◌≤◌, ◌++◌};
ghost use Rattle.arrayvec.specs.ArrayVec.{array_vec_len};
ghost use Rattle.lines.specs.Lines.{block_text};

use crate::text::{Text, push_field};

/// Why there is no list.
#[derive(Clone, Copy, PartialEq, Eq, Debug)]
pub enum Block {
    /// A blocked moment: no count of the channel after the slot costs little enough.
    Moment {
        slot: u16,
        channel: u8,
    },
    /// A shut window: the earliest slot of the channel's reading is after the latest.
    Shut {
        channel: u8,
        reading: u16,
        earliest: u16,
        latest: u16,
    },
    /// A crowded interval, from the first slot to the last, and how many windows lie wholly inside.
    Crowd {
        first: u16,
        last: u16,
        number: u16,
    },
}

impl Block {
    // Appends the block to a text.
    pub(crate) fn push(self, text: &mut Text)
        requires { array_vec_len text.old ≤ 6 }
        ensures bytes { text.new.items ≡ text.old.items ++ block_text self }
        ensures long { array_vec_len text.new ≤ array_vec_len text.old + 28 }
    {
        match self {
            Block::Moment { slot, channel } => {
                push_field::<5>(text, "MOMENT ", u64::from(slot));
                push_field::<3>(text, " ", u64::from(channel));
            }
            Block::Shut {
                channel,
                reading,
                earliest,
                latest,
            } => {
                push_field::<3>(text, "SHUT ", u64::from(channel));
                push_field::<5>(text, " ", u64::from(reading));
                push_field::<5>(text, " ", u64::from(earliest));
                push_field::<5>(text, " ", u64::from(latest));
            }
            Block::Crowd {
                first,
                last,
                number,
            } => {
                push_field::<5>(text, "CROWD ", u64::from(first));
                push_field::<5>(text, " ", u64::from(last));
                push_field::<5>(text, " ", u64::from(number));
            }
        }
    }
}
