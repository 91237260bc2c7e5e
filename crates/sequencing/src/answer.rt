// What list and best answer.
ghost use Rattle.std.specs.Prelude.{◌<◌, ◌≤◌};
ghost use Rattle.sequencing.specs.Outcomes.{IsBelowTop, IsBelowTop-prop};

use matching::{Crowd, Window};
use windows::Moment;

/// Why no list is within a bound: the first of these that holds.
#[derive(Clone, Copy, PartialEq, Eq, Debug)]
pub enum Block {
    /// A moment is blocked: no count of the channel costs at most the bound there. The first one.
    Blocked(Moment),
    /// A window is shut: its earliest slot is after its latest. The first one; its slot is 0.
    Shut(Window),
    /// Slots are crowded: more windows lie wholly inside them than there are slots.
    Crowded(Crowd),
}

/// What list answers at a bound.
#[derive(Clone, Copy, PartialEq, Eq, Debug)]
pub enum Listed {
    /// A list is within the bound, and stands in the memory that was lent, with its windows and slots.
    Within,
    /// No list is within the bound, and why.
    Over(Block),
}

/// What best answers.
#[derive(Clone, Copy, PartialEq, Eq, Debug)]
pub struct Best {
    /// How many readings, and so how many slots, the round has.
    pub total: u16,
    /// How many channels it has.
    pub channels: u8,
    /// The least bound, if there is one.
    pub outcome: Outcome,
    // There are 1 to 4096 readings, of 1 to 64 channels, and the least is below the forbidden cost.
    pub ghost some: { 0 < total },
    pub ghost few: { total ≤ 4096 },
    pub ghost some_channel: { 0 < channels },
    pub ghost few_channels: { channels ≤ 64 },
    pub ghost below_top: { IsBelowTop outcome } by { IsBelowTop-prop outcome },
}

/// The least bound at which there is a list, or why there is none.
#[derive(Clone, Copy, PartialEq, Eq, Debug)]
pub enum Outcome {
    /// The least bound; the list at it stands in the memory that was lent, with its windows and slots.
    Least {
        /// The least bound, which is the largest cost of the list.
        least: u64,
        /// Why no list is within the bound below it; nothing where it is 0.
        below: Option<Block>,
    },
    /// Every list has a moment of the forbidden cost, and why.
    NoLeast(Block),
}
