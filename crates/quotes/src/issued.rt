// An issued quote, and its line.
ghost use Rattle.std.specs.Prelude.{◌≡◌, ◌^◌, ◌<◌};

use crate::draft::Draft;
use crate::figures::figure;
use crate::refusal::{Refusal, Returned};
use lines::{Line, Quote, ShortMemory};

/// The largest serial number of a quote; the least is 1.
pub const LARGEST_SERIAL: u32 = 999_999;

/// A quote with its serial number. It can be printed once.
#[derive(Debug, Drop)]
pub struct Issued {
    pub(crate) draft: Draft,
    pub(crate) serial: u32,
    ghost some: { 0 < serial },
    ghost short: { serial < 10 ^ 6 },
}

impl Issued {
    ghost use Rattle.quotes.specs.Quotes.{MayPrint, line_of};

    /// Writes the line of the quote at the start of the memory, and answers its length. Refused where the memory has fewer
    /// than 96 bytes; then the quote comes back.
    pub fn print(self, memory: &mut [u8]) -> Result<usize, Returned<Issued>>
        ensures { MayPrint self memory.old memory.new result }
    {
        match self.line().write(memory) {
            Ok(length) => Ok(length),
            Err(ShortMemory) => Err(Returned {
                refusal: Refusal::ShortMemory,
                quote: self,
            }),
        }
    }

    // The line of the quote.
    fn line(&self) -> Line
        ensures { result ≡ line_of self.now }
    {
        let Draft {
            total,
            channels,
            least,
            layers,
        } = self.draft;
        let figure = figure(least, total).unwrap();
        Line::Quote(Quote {
            serial: self.serial,
            least,
            total,
            channels,
            layers,
            figure,
        })
    }
}
