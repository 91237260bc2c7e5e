// Whether readings of a channel of a row may be tried.
ghost use Rattle.std.specs.Prelude.{◌≡◌, ◌||◌, ◌==◌, nat_lt};
ghost use Rattle.sequencing.specs.Refusals.{MayRefuse};
ghost use Rattle.rows.specs.Rows.{has_above, number, trial_refused};

use crate::refusal::Refusal;
use crate::row::table;
use crate::trial::Trial;
use penalty::{CHANNELS, LIMIT};
use round::within_limit;

impl Trial<'_> {
    /// Refuses readings of a channel that may not be tried, by the first number that fits.
    #[tactic(auto, using(crate::proofs::Numbers::trial_as_table))]
    pub fn check(row: &[u16], channel: u8, readings: u16) -> Result<(), Refusal>
        ensures { MayRefuse (trial_refused row.now channel readings) (λ _. Unit) number Unit result }
    {
        let Ok(mut changed) = <[u16; CHANNELS]>::try_from(row) else {
            return Err(Refusal::RowLength);
        };
        let place = usize::from(channel);
        if place >= CHANNELS {
            return Err(Refusal::ChannelAboveLimit);
        }
        if is_out_of_range(readings) || has_above(row) {
            return Err(Refusal::ReadingsOutOfRange);
        }
        if changed[place] == 0 {
            return Err(Refusal::Absent);
        }
        // All that a table can still be refused by is its total.
        changed[place] = readings;
        table(&changed)?;
        Ok(())
    }
}

// Whether no channel can have so many readings.
fn is_out_of_range(readings: u16) -> bool
    ensures { result ≡ (readings == 0 || nat_lt 4096 readings) }
{
    readings == 0 || readings > LIMIT
}

// Whether a number of a row is above the limit.
fn has_above(row: &[u16]) -> bool
    ensures { result ≡ has_above row.now }
{
    !within_limit(row)
}
