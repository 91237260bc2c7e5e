// The lines, and how one is written in memory.
ghost use Rattle.std.specs.Prelude.{◌≡◌, ◌+◌, ◌≤◌, ◌++◌, length};
ghost use Rattle.arrayvec.specs.ArrayVec.{array_vec_len};
ghost use Rattle.lines.specs.Lines.{body_text, text as text_of};
ghost use Rattle.lines.specs.Text.{MayWrite};

use crate::audited::Audited;
use crate::block::Block;
use crate::quote::Quote;
use crate::reading::Reading;
use crate::refusal::ShortMemory;
use crate::text::{Text, push_field, push_word};

/// How many bytes of memory a line is given, and so the most that it can have.
pub const LINE_BYTES: usize = 96;

/// What a program prints in one line.
#[derive(Clone, Copy, PartialEq, Eq, Debug)]
pub enum Line {
    /// The least bound that has a list, and its figure.
    Least { least: u64, figure: u64 },
    /// No bound has a list.
    NoLeast,
    /// A list is within a bound, and its largest cost.
    Within { bound: u64, largest: u64 },
    /// No list is within a bound.
    Over { bound: u64 },
    /// A reading with its window and its slot.
    Reading(Reading),
    /// Why there is no list.
    Blocked(Block),
    /// Why there is none at the bound below the least; nothing where the least is 0.
    Below(Option<Block>),
    /// Why a job is stopped.
    Fault { number: u8, layer: u8, offset: u16 },
    /// What an audit answers.
    Audited(Audited),
    /// What an owner is told of a bridge.
    Quote(Quote),
}

impl Line {
    /// Writes the line at the start of the memory, and answers its length.
    // Memory and a length, and no text by value: docs/RULES.md has the caller lend the memory.
    pub fn write(self, memory: &mut [u8]) -> Result<usize, ShortMemory>
        ensures { MayWrite (text_of self) memory.old memory.new result }
    {
        if memory.len() < LINE_BYTES {
            return Err(ShortMemory);
        }
        let text = self.text();
        memory[..text.len()].copy_from_slice(text.as_slice());
        Ok(text.len())
    }

    // The text of the line.
    fn text(self) -> Text
        ensures { result.items ≡ text_of self }
    {
        let mut text = Text::new();
        self.push_body(&mut text);
        push_word(&mut text, "\n");
        text
    }

    // Appends the line, but for its end, to an empty text.
    fn push_body(self, text: &mut Text)
        requires { array_vec_len text.old ≡ 0 }
        ensures bytes { text.new.items ≡ text.old.items ++ body_text self }
        ensures long { array_vec_len text.new ≤ 95 }
    {
        match self {
            Line::Least { least, figure } => {
                push_field::<20>(text, "LEAST ", least);
                push_field::<20>(text, " FIGURE ", figure);
            }
            Line::NoLeast => push_word(text, "NONE"),
            Line::Within { bound, largest } => {
                push_field::<20>(text, "WITHIN ", bound);
                push_field::<20>(text, " LARGEST ", largest);
            }
            Line::Over { bound } => push_field::<20>(text, "OVER ", bound),
            Line::Reading(reading) => reading.push(text),
            Line::Blocked(block) => block.push(text),
            Line::Below(None) => push_word(text, "BELOW NOTHING"),
            Line::Below(Some(block)) => {
                push_word(text, "BELOW ");
                block.push(text);
            }
            Line::Fault {
                number,
                layer,
                offset,
            } => {
                push_field::<3>(text, "FAULT ", u64::from(number));
                push_field::<3>(text, " ", u64::from(layer));
                push_field::<5>(text, " ", u64::from(offset));
            }
            Line::Audited(answer) => answer.push(text),
            Line::Quote(quote) => quote.push(text),
        }
    }
}
