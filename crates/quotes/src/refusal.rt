// Why a quote is not drafted, issued or printed.
ghost use Rattle.std.specs.Prelude.{◌≡◌};
ghost use Rattle.quotes.specs.Refusals.{number};

use lines::ShortMemory;

/// The fault of a call.
#[derive(Clone, Copy, PartialEq, Eq, Debug)]
pub enum Refusal {
    /// The memory is shorter than the longest line.
    ShortMemory,
    /// The number is 0 or above 999,999.
    SerialOutOfRange,
    /// The best has no least.
    NoLeast,
}

impl Refusal {
    /// The number of the refusal.
    pub fn number(self) -> u8
        ensures { result ≡ number self }
    {
        match self {
            Refusal::ShortMemory => ShortMemory.number(),
            Refusal::SerialOutOfRange => 19,
            Refusal::NoLeast => 20,
        }
    }
}

/// A refusal, and the quote that comes back with it as it was.
#[derive(Debug, Drop)]
pub struct Returned<Q> {
    /// Why the quote comes back.
    pub refusal: Refusal,
    /// The quote.
    pub quote: Q,
}
