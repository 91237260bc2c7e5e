// Why the places do not hold the windows of a round.
use matching::Window;

/// A slot after which a channel is counted, 0 before the first, and the channel.
#[derive(Clone, Copy, PartialEq, Eq, Debug)]
pub struct Moment {
    /// The slot after which the count is taken, 0 before the first.
    pub slot: u16,
    /// The channel that is counted.
    pub channel: u8,
}

/// Why the places do not hold the windows of a round.
#[derive(Clone, Copy, PartialEq, Eq, Debug)]
pub enum Unfilled {
    /// There are fewer places than readings.
    Places,
    /// A moment is blocked: no count of the channel costs at most the bound there. The first one.
    Blocked(Moment),
    /// No moment is blocked, but a window is shut: its earliest slot is after its latest. The first one.
    Shut(Window),
}

impl From<Moment> for Unfilled {
    ghost use Rattle.std.specs.Prelude.{◌≡◌};
    ghost use Rattle.windows.specs.declared.answer.Unfilled.TheVariants.{Blocked};

    ghost from_gives = { λ moment unfilled. unfilled ≡ Blocked moment };

    fn from(moment: Moment) -> Unfilled {
        Unfilled::Blocked(moment)
    }
}
