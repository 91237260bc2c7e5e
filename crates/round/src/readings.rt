// The table of readings by channel number.
ghost use Rattle.std.specs.Prelude.{◌≡◌, ◌+◌, ◌-◌, ◌<◌, ◌≤◌, ◌↔◌, All, Any, IsTrue, MatchBool, cond, count_by, length, nat_lt, replicate, slice_set, sum};
ghost use Rattle.round.specs.Lists.{readings as d_of};

use crate::refusal::Refusal;
use penalty::{CHANNELS, LIMIT};

/// The readings of each channel number in a round, 0 where no channel is.
#[derive(Clone, Copy)]
pub struct Readings {
    pub(crate) by_channel: [u16; CHANNELS],
    total: u16,
    // A number for each channel number, their sum, and the limit on it.
    ghost long: { length by_channel ≡ 64 },
    ghost summed: { total ≡ sum by_channel },
    ghost few: { total ≤ 4096 },
}

/// The table that a row gives, unless it is refused with 17, 2 or 5.
impl TryFrom<&[u16]> for Readings {
    ghost use Rattle.round.specs.Tables.{IsTable};

    type Error = Refusal;

    ghost try_from_gives = { λ row r. IsTable row.now r };

    #[tactic(auto, using(crate::proofs::Faults::total_above))]
    fn try_from(row: &[u16]) -> Result<Readings, Refusal> {
        let Ok(by_channel) = <[u16; CHANNELS]>::try_from(row) else {
            return Err(Refusal::RowLength);
        };
        let total = sum_of(row);
        if !within_limit(row) {
            return Err(Refusal::ReadingsAboveLimit);
        }
        if total > u32::from(LIMIT) {
            return Err(Refusal::TotalAboveLimit);
        }
        Ok(Readings {
            by_channel,
            total: total as u16,
        })
    }
}

impl Readings {
    /// A table without a channel.
    pub fn new() -> Readings
        ensures { result.by_channel ≡ replicate 64 0 }
    {
        Readings {
            by_channel: [0; CHANNELS],
            total: 0,
        }
    }

    /// Gives a channel number its readings, 0 for no channel, and says whether the table takes them: it changes nothing
    /// where there is no such number, or where the total would be above 4,096.
    pub fn set(&mut self, channel: u8, readings: u16) -> bool
        ensures taken { IsTrue result ↔
            (channel < 64) × ((sum self.old.by_channel - d_of self.old.by_channel channel) + readings ≤ 4096) }
        ensures table { self.new.by_channel ≡ cond result (slice_set self.old.by_channel channel readings) self.old.by_channel }
    {
        let place = usize::from(channel);
        if place >= CHANNELS {
            return false;
        }
        let rest = self.total - self.by_channel[place];
        if readings > LIMIT - rest {
            return false;
        }
        // Both at once, since the total is that of the numbers.
        let Readings {
            by_channel,
            total,
            ..
        } = self;
        by_channel[place] = readings;
        *total = rest + readings;
        true
    }

    /// The sum of all readings, which is also the number of slots.
    pub fn total(&self) -> u16
        ensures { result ≡ sum self.now.by_channel }
    {
        self.total
    }

    /// How many channels there are.
    pub fn channels(&self) -> u8
        ensures { result ≡ count_by (nat_lt 0) self.now.by_channel }
    {
        self.by_channel.iter().filter(|&&n| n > 0).count() as u8
    }

    /// The readings of a channel, 0 where it is not in the table.
    // The look-up of `Weights` too: a table for both would have to be taken apart in each clause.
    pub fn of(&self, channel: u8) -> u16
        ensures { result ≡ d_of self.now.by_channel channel }
    {
        self.by_channel
            .get(usize::from(channel))
            .copied()
            .unwrap_or(0)
    }
}

/// Whether no number of a row is above 4,096.
pub fn within_limit(row: &[u16]) -> bool
    ensures { MatchBool result (All (λ n. n ≤ 4096) row.now) (Any (λ n. 4096 < n) row.now) }
{
    row.iter().all(|&n| n <= LIMIT)
}

// The sum of a row.
fn sum_of(row: &[u16]) -> u32
    requires { length row.now ≤ 64 }
    ensures { result ≡ sum row.now }
{
    row.iter().map(|&n| u32::from(n)).sum()
}
