// Why list and best are refused.
ghost use Rattle.std.specs.Prelude.{◌≡◌};
ghost use Rattle.sequencing.specs.Refusals.{number};

/// The first fault of a call that makes a list.
#[derive(Clone, Copy, PartialEq, Eq, Debug)]
pub enum Refusal {
    /// No channel has readings.
    NoChannel,
    /// The bound is the forbidden cost or above it.
    BoundAboveLimit,
    /// There are fewer window places or list bytes than readings, or fewer than 64 ready places.
    TooLittleMemory,
}

impl Refusal {
    /// The number of the refusal.
    pub fn number(self) -> u8
        ensures { result ≡ number self }
    {
        match self {
            Refusal::NoChannel => 6,
            Refusal::BoundAboveLimit => 7,
            Refusal::TooLittleMemory => 8,
        }
    }
}
