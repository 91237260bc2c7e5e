// Why the readings of a round have no slots.

/// Slots that are crowded: more windows lie wholly inside them than there are slots.
#[derive(Clone, Copy, PartialEq, Eq, Debug)]
pub struct Crowd {
    /// The first of the slots.
    pub first: u16,
    /// The last of the slots.
    pub last: u16,
    /// How many windows lie wholly inside.
    pub number: u16,
}

/// Why the readings have no slots.
#[derive(Clone, Copy, PartialEq, Eq, Debug)]
pub enum Unplaced {
    /// There are fewer than 64 ready places.
    ReadyPlaces,
    /// The windows are not arranged: there are more than 4,096, one is shut or lies outside the
    /// slots or is of no channel number, they are not by channel and then reading, or an end falls
    /// from one reading of a channel to the next.
    Windows,
    /// No assignment exists, since some slots are crowded.
    Crowded(Crowd),
}

impl From<Crowd> for Unplaced {
    ghost use Rattle.std.specs.Prelude.{◌≡◌};
    ghost use Rattle.matching.specs.declared.answer.Unplaced.TheVariants.{Crowded};

    ghost from_gives = { λ crowd unplaced. unplaced ≡ Crowded crowd };

    fn from(crowd: Crowd) -> Unplaced {
        Unplaced::Crowded(crowd)
    }
}
