// Why the rows of an owner's table are refused.
ghost use Rattle.std.specs.Prelude.{◌≡◌};
ghost use Rattle.penalty.specs.OwnRows.{number};

use crate::side::Side;

/// The first fault of the two rows of a table, in the order of the checks.
#[derive(Clone, Copy, PartialEq, Eq, Debug)]
pub enum RowRefusal {
    /// The row is not 256 long.
    Length { row: Side },
    /// The first number of the row is not 0.
    First { row: Side },
    /// A number of the row is below the one before it; the first step that has such a number, from 2 to 255.
    Falls { row: Side, step: u8 },
}

impl RowRefusal {
    /// The number of the refusal, 21 to 23.
    // No `From`: the number leaves out the row and the step.
    pub fn number(self) -> u8
        ensures { result ≡ number self }
    {
        match self {
            RowRefusal::Length { .. } => 21,
            RowRefusal::First { .. } => 22,
            RowRefusal::Falls { .. } => 23,
        }
    }
}
