// The roster: the channels of a round, over a penalty.
ghost use Rattle.std.specs.Prelude.{◌≡◌, ◌+◌, ◌-◌, ◌<◌, ◌||◌, ◌==◌, [], ◌∷◌, nat_lt, replicate, slice_set, sum};
ghost use Rattle.round.specs.Lists.{readings as d_of};
ghost use Rattle.sequencing.specs.Refusals.{MayRefuse, first_of};
ghost use Rattle.roster.specs.Book.{number};
ghost use Rattle.roster.specs.Calls.{Enters};

use crate::call::Call;
use crate::refusal::Refusal;
use penalty::{CHANNELS, LIMIT};
use round::Readings;

/// The channels of a round with their readings, over a penalty.
#[derive(Clone, Copy, Drop)]
pub struct Roster<P> {
    pub(crate) penalty: P,
    pub(crate) readings: Readings,
}

impl<P> Roster<P> {
    /// A roster without a channel.
    pub fn new(penalty: P) -> Roster<P>
        ensures penalty { result.penalty ≡ penalty }
        ensures readings { result.readings.by_channel ≡ replicate 64 0 }
    {
        Roster {
            penalty,
            readings: Readings::new(),
        }
    }

    /// The channels with their readings.
    pub fn readings(&self) -> &Readings
        ensures { result.now ≡ self.now.readings }
    {
        &self.readings
    }

    /// Adds a channel that is not there.
    pub fn add(&mut self, channel: u8, readings: u16) -> Result<(), Refusal>
        ensures entries { Enters (Call.Add channel readings) self.old.readings.by_channel self.new.readings.by_channel result }
        ensures penalty { self.new.penalty ≡ self.old.penalty }
    {
        check_channel(channel)?;
        check_readings(readings)?;
        if self.has(channel) {
            return Err(Refusal::Present);
        }
        self.set(channel, readings)
    }

    /// Gives a channel that is there other readings.
    pub fn change(&mut self, channel: u8, readings: u16) -> Result<(), Refusal>
        ensures entries { Enters (Call.Change channel readings) self.old.readings.by_channel self.new.readings.by_channel result }
        ensures penalty { self.new.penalty ≡ self.old.penalty }
    {
        check_channel(channel)?;
        check_readings(readings)?;
        if !self.has(channel) {
            return Err(Refusal::Absent);
        }
        self.set(channel, readings) // in the place of those that it had
    }

    /// Removes a channel that is there.
    pub fn remove(&mut self, channel: u8) -> Result<(), Refusal>
        ensures entries { Enters (Call.Remove channel) self.old.readings.by_channel self.new.readings.by_channel result }
        ensures penalty { self.new.penalty ≡ self.old.penalty }
    {
        check_channel(channel)?;
        if !self.has(channel) {
            return Err(Refusal::Absent);
        }
        // Fewer readings always fit.
        self.set(channel, 0)
    }

    // Whether a channel is there.
    fn has(&self, channel: u8) -> bool
        ensures { result ≡ nat_lt 0 (d_of self.now.readings.by_channel channel) }
    {
        self.readings.of(channel) > 0
    }

    // Gives a channel number its readings, unless the total would be above 4,096.
    fn set(&mut self, channel: u8, readings: u16) -> Result<(), Refusal>
        requires { channel < 64 }
        ensures entries { MayRefuse
            (first_of ((5, nat_lt 4096 ((sum self.old.readings.by_channel - d_of self.old.readings.by_channel channel) + readings)) ∷ []))
            (λ _. self.new.readings.by_channel ≡ slice_set self.old.readings.by_channel channel readings)
            number (self.new.readings.by_channel ≡ self.old.readings.by_channel) result }
        ensures penalty { self.new.penalty ≡ self.old.penalty }
    {
        if !self.readings.set(channel, readings) {
            return Err(Refusal::TotalAboveLimit);
        }
        Ok(())
    }
}

// Refuses what is no channel number.
fn check_channel(channel: u8) -> Result<(), Refusal>
    ensures { MayRefuse (first_of ((1, nat_lt 63 channel) ∷ [])) (λ _. Unit) number Unit result }
{
    if usize::from(channel) >= CHANNELS {
        return Err(Refusal::ChannelAboveLimit);
    }
    Ok(())
}

// Refuses readings that no channel can have.
fn check_readings(readings: u16) -> Result<(), Refusal>
    ensures { MayRefuse (first_of ((2, readings == 0 || nat_lt 4096 readings) ∷ [])) (λ _. Unit) number Unit result }
{
    if readings == 0 || readings > LIMIT {
        return Err(Refusal::ReadingsOutOfRange);
    }
    Ok(())
}
