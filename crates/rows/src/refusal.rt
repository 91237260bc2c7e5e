// Why a call on a row is refused.
ghost use Rattle.std.specs.Prelude.{◌≡◌};
ghost use Rattle.rows.specs.Rows.{number};

/// The first fault of a call on a row, in the order of the checks.
// Values of its own, one for each number: both `round` and the roster have one for 5.
#[derive(Clone, Copy, PartialEq, Eq, Debug)]
pub enum Refusal {
    /// The row is not 64 long.
    RowLength,
    /// The channel is above 63.
    ChannelAboveLimit,
    /// The readings to be tried are 0 or above 4,096, or a number of the row is above 4,096.
    ReadingsOutOfRange,
    /// The channel is not in the row.
    Absent,
    /// The readings of all channels are, or would be, above 4,096.
    TotalAboveLimit,
    /// Best of the row's channels is refused.
    Sequencing(sequencing::Refusal),
}

impl Refusal {
    /// The number of the refusal.
    pub fn number(self) -> u8
        ensures { result ≡ number self }
    {
        match self {
            Refusal::RowLength => 17,
            Refusal::ChannelAboveLimit => 1,
            Refusal::ReadingsOutOfRange => 2,
            Refusal::Absent => 4,
            Refusal::TotalAboveLimit => 5,
            Refusal::Sequencing(refusal) => refusal.number(),
        }
    }
}

impl From<sequencing::Refusal> for Refusal {
    ghost use Rattle.rows.specs.declared.refusal.Refusal.TheVariants.{Sequencing};

    ghost from_gives = { λ refusal own. own ≡ Sequencing refusal };

    fn from(refusal: sequencing::Refusal) -> Refusal {
        Refusal::Sequencing(refusal)
    }
}
