// The draft of a quote: what the office has found for a bridge, before it gives the quote a number.
ghost use Rattle.std.specs.Prelude.{◌^◌, ◌<◌, ◌≤◌};
ghost use Rattle.penalty.specs.Cost.{top};
ghost use Rattle.quotes.specs.Figure.{figure_of};

use crate::issued::{Issued, LARGEST_SERIAL};
use crate::refusal::{Refusal, Returned};
use penalty::Penalty;
use sequencing::{Best, Outcome};

/// A quote that has no serial number yet. It can be issued once, and not printed.
#[derive(Debug, Drop)]
pub struct Draft {
    pub(crate) total: u16,
    pub(crate) channels: u8,
    pub(crate) least: u64,
    pub(crate) layers: u8,
    // What is true of every best that has a least.
    ghost some: { 0 < total },
    ghost few: { total ≤ 4096 },
    ghost some_channel: { 0 < channels },
    ghost few_channels: { channels ≤ 64 },
    ghost below_top: { least < top },
    // So the long numbers of its line have no more digits than a line has room for.
    ghost short_least: { least < 10 ^ 13 },
    ghost short_figure: { figure_of least total < 10 ^ 15 },
}

impl Draft {
    ghost use Rattle.quotes.specs.Quotes.{MayDraft, MayIssue};

    /// The draft of a quote for a best, with the depth of a penalty; that the best was found under this penalty is not
    /// checked. Refused where the best has no least.
    pub fn new<P: Penalty>(best: Best, penalty: &P) -> Result<Draft, Refusal>
        ensures { MayDraft best (P.depth penalty.now) result }
    {
        let Outcome::Least { least, .. } = best.outcome else {
            return Err(Refusal::NoLeast);
        };
        Ok(Draft {
            total: best.total,
            channels: best.channels,
            least,
            layers: penalty.depth(),
        })
    }

    /// Issues the draft under a serial number. Refused where the number is 0 or above 999,999; then the draft comes back.
    pub fn issue(self, serial: u32) -> Result<Issued, Returned<Draft>>
        ensures { MayIssue self serial result }
    {
        if serial == 0 || serial > LARGEST_SERIAL {
            return Err(Returned {
                refusal: Refusal::SerialOutOfRange,
                quote: self,
            });
        }
        Ok(Issued {
            draft: self,
            serial,
        })
    }
}
