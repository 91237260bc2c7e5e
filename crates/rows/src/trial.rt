// Trials: the readings of one channel of a row are changed for a while, and stand again when the trial ends.
ghost use Rattle.std.specs.Prelude.{◌≡◌, length};
ghost use Rattle.sequencing.specs.Answers.{IsBest};
ghost use Rattle.sequencing.specs.Memory.{memory};
ghost use Rattle.sequencing.specs.Refusals.{MayRefuse};
ghost use Rattle.rows.specs.Rows.{changed, number, row_refused};
ghost use Rattle.rows.specs.Trials.{row_before, tried, tried_refused};

use crate::refusal::Refusal;
use crate::row::best;
use matching::{Ready, Window};
use penalty::Penalty;
use sequencing::Best;

/// A row in which the readings of one channel are changed. While it is there nobody else reads or changes the row, and when it
/// is dropped, on every way out, the row is as it was.
pub struct Trial<'a> {
    row: &'a mut [u16],
    channel: u8,
    // The number that stood there before; nothing where the trial changed no number.
    before: Option<u16>,
}

impl<'a> Trial<'a> {
    /// Changes the readings of a channel; where `check` refuses that, it changes no number.
    pub fn new(row: &'a mut [u16], channel: u8, readings: u16) -> Trial<'a>
        ensures named { result.row.ghost_name ≡ row.entry.ghost_name }
        ensures row { result.row.now ≡ tried row.old channel readings }
        ensures before { row_before result ≡ row.old }
    {
        if Trial::check(row, channel, readings).is_ok() {
            return Trial::open(row, channel, readings);
        }
        Trial {
            row,
            channel,
            before: None,
        }
    }

    // Changes the readings of a channel, where the row has a place for them.
    fn open(row: &'a mut [u16], channel: u8, readings: u16) -> Trial<'a>
        ensures named { result.row.ghost_name ≡ row.entry.ghost_name }
        ensures row { result.row.now ≡ changed row.old channel readings }
        ensures before { row_before result ≡ row.old }
    {
        let before = row.get(usize::from(channel)).copied();
        put(row, channel, readings);
        Trial {
            row,
            channel,
            before,
        }
    }

    /// Best of the row as the trial has changed it.
    pub fn best<P: Penalty>(
        &self,
        penalty: &P,
        windows: &mut [Window],
        ready: &mut [Ready],
        list: &mut [u8],
    ) -> Result<Best, Refusal>
        ensures { MayRefuse (row_refused self.now.row.now (length windows.old) (length ready.old) (length list.old))
            (IsBest (P.cost penalty.now) self.now.row.now (memory windows.old ready.old list.old) (memory windows.new ready.new list.new))
            number (memory windows.new ready.new list.new ≡ memory windows.old ready.old list.old) result }
    {
        best(penalty, self.row, windows, ready, list)
    }
}

impl Drop for Trial<'_> {
    /// Ends the trial: the old number stands again. What it leaves behind `row`, its first field, is the row before it.
    fn drop(self)
        ensures { self.exit.0.now ≡ row_before self.entry }
    {
        let Trial {
            row,
            channel,
            before,
        } = self;
        if let Some(number) = before {
            put(row, channel, number);
        }
    }
}

// Puts the readings of a channel into a row, where it has a place for them.
#[tactic(auto, using(std::proofs::lemmas::List::set_past))]
fn put(row: &mut [u16], channel: u8, readings: u16)
    ensures { row.new ≡ changed row.old channel readings }
{
    let place = usize::from(channel);
    if place < row.len() {
        row[place] = readings;
    }
}

/// Best of a row with other readings of one channel. The row is as it was, whatever is answered.
pub fn trial_best<P: Penalty>(
    penalty: &P,
    row: &mut [u16],
    channel: u8,
    readings: u16,
    windows: &mut [Window],
    ready: &mut [Ready],
    list: &mut [u8],
) -> Result<Best, Refusal>
    ensures row { row.new ≡ row.old }
    ensures best { MayRefuse (tried_refused row.old channel readings (length windows.old) (length ready.old) (length list.old))
        (IsBest (P.cost penalty.now) (changed row.old channel readings)
        (memory windows.old ready.old list.old) (memory windows.new ready.new list.new))
        number (memory windows.new ready.new list.new ≡ memory windows.old ready.old list.old) result }
{
    Trial::check(row, channel, readings)?;
    let trial = Trial::open(row, channel, readings);
    let best = trial.best(penalty, windows, ready, list)?;
    Ok(best)
}
