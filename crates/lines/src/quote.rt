// A quote, as lines show it.
ghost use Rattle.std.specs.Prelude.{◌≡◌, ◌+◌, ◌^◌, ◌<◌, ◌≤◌, ◌++◌};
ghost use Rattle.arrayvec.specs.ArrayVec.{array_vec_len};

use crate::text::{Text, push_field};

/// What an owner is told of the best list of a bridge.
#[derive(Clone, Copy, PartialEq, Eq, Debug)]
pub struct Quote {
    /// The number that the office gives the quote.
    pub serial: u32,
    /// The least bound that has a list.
    pub least: u64,
    /// How many readings the round has.
    pub total: u16,
    /// How many channels it has.
    pub channels: u8,
    /// How many layers lie over the bottom.
    pub layers: u8,
    /// The figure of the least.
    pub figure: u64,
    // The longer numbers have so few digits that every quote fits in a line.
    pub ghost short_serial: { serial < 10 ^ 6 },
    pub ghost short_least: { least < 10 ^ 13 },
    pub ghost short_figure: { figure < 10 ^ 15 },
}

impl Quote {
    ghost use Rattle.lines.specs.Lines.{quote_text};

    // Appends the quote to an empty text.
    pub(crate) fn push(self, text: &mut Text)
        requires { array_vec_len text.old ≡ 0 }
        ensures bytes { text.new.items ≡ text.old.items ++ quote_text self }
        ensures long { array_vec_len text.new ≤ 95 }
    {
        push_field::<6>(text, "QUOTE ", u64::from(self.serial));
        push_field::<13>(text, " LEAST ", self.least);
        push_field::<5>(text, " TOTAL ", u64::from(self.total));
        push_field::<3>(text, " CHANNELS ", u64::from(self.channels));
        push_field::<3>(text, " LAYERS ", u64::from(self.layers));
        push_field::<15>(text, " FIGURE ", self.figure);
    }
}
