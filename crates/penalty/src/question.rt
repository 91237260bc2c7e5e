// What a penalty is asked, and the domain of all penalties: outside it every penalty costs TOP.
ghost use Rattle.std.specs.Prelude.{◌≡◌};
ghost use Rattle.penalty.specs.Cost.{inside};

use limits::{CHANNELS, LIMIT};

/// The question what it costs that a channel stands so many times in the first slots of a round.
#[derive(Clone, Copy, PartialEq, Eq, Debug)]
pub struct Question {
    /// How many slots the round has.
    pub slots: u16,
    /// The channel that is counted.
    pub channel: u8,
    /// How many readings the channel has in the round.
    pub readings: u16,
    /// How often it stands in the first `slot` slots.
    pub count: u16,
    /// The slot after which the count is taken, 0 before the first.
    pub slot: u16,
}

impl Question {
    /// Whether the question lies in the domain of all penalties.
    pub fn in_domain(self) -> bool
        ensures { result ≡ inside self.slots self.channel self.readings self.count self.slot }
    {
        (1..=LIMIT).contains(&self.slots)
            && usize::from(self.channel) < CHANNELS
            && (1..=LIMIT).contains(&self.readings)
            && self.count <= self.readings
            && self.slot <= self.slots
    }
}
