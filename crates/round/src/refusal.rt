// Why a table or a list is refused.
ghost use Rattle.std.specs.Prelude.{◌≡◌};
ghost use Rattle.round.specs.Refusals.{number};

/// The first fault of a table or a list, in the order of the checks.
#[derive(Clone, Copy, PartialEq, Eq, Debug)]
pub enum Refusal {
    /// The row is not 64 long.
    RowLength,
    /// A number of the row is above 4,096.
    ReadingsAboveLimit,
    /// The total is above 4,096.
    TotalAboveLimit,
    /// No number of the row is above 0.
    NoChannel,
    /// The list is not as long as the total.
    ListLength,
    /// A byte of the list is no channel of the table; its first slot.
    NotAChannel { slot: u16 },
    /// A channel stands in the list too often or too seldom; the smallest one.
    WrongCount { channel: u8 },
}

impl Refusal {
    /// The number of the refusal.
    // No `From`: the number leaves out the slot or the channel.
    pub fn number(self) -> u8
        ensures { result ≡ number self }
    {
        match self {
            Refusal::RowLength => 17,
            Refusal::ReadingsAboveLimit => 2,
            Refusal::TotalAboveLimit => 5,
            Refusal::NoChannel => 6,
            Refusal::ListLength => 14,
            Refusal::NotAChannel { .. } => 15,
            Refusal::WrongCount { .. } => 16,
        }
    }
}
