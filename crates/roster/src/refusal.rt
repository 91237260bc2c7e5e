// Why a call on a roster is refused.
ghost use Rattle.std.specs.Prelude.{◌≡◌};
ghost use Rattle.roster.specs.Book.{number};

/// The first fault of a call, in the order of the numbers.
#[derive(Clone, Copy, PartialEq, Eq, Debug)]
pub enum Refusal {
    /// The channel is above 63.
    ChannelAboveLimit,
    /// The readings are 0 or above 4,096.
    ReadingsOutOfRange,
    /// The channel is there already.
    Present,
    /// The channel is not there.
    Absent,
    /// The readings of all channels would be above 4,096.
    TotalAboveLimit,
    /// List or best is refused.
    Sequencing(sequencing::Refusal),
}

impl Refusal {
    /// The number of the refusal.
    pub fn number(self) -> u8
        ensures { result ≡ number self }
    {
        match self {
            Refusal::ChannelAboveLimit => 1,
            Refusal::ReadingsOutOfRange => 2,
            Refusal::Present => 3,
            Refusal::Absent => 4,
            Refusal::TotalAboveLimit => 5,
            Refusal::Sequencing(refusal) => refusal.number(),
        }
    }
}

impl From<sequencing::Refusal> for Refusal {
    ghost use Rattle.roster.specs.declared.refusal.Refusal.TheVariants.{Sequencing};

    ghost from_gives = { λ refusal own. own ≡ Sequencing refusal };

    fn from(refusal: sequencing::Refusal) -> Refusal {
        Refusal::Sequencing(refusal)
    }
}
