// Why a line is not written.
ghost use Rattle.std.specs.Prelude.{◌≡◌};

/// The memory is shorter than the longest line.
#[derive(Clone, Copy, PartialEq, Eq, Debug, Drop)]
pub struct ShortMemory;

impl ShortMemory {
    /// The number of the refusal.
    pub fn number(self) -> u8
        ensures { result ≡ 18 }
    {
        18
    }
}
