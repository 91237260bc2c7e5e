// A question to a new roster, with the channels of an old one.
ghost use Rattle.std.specs.Prelude.{◌≡◌};
ghost use Rattle.job.specs.Adds.{AreAdds};
ghost use Rattle.roster.specs.Book.{lengths, lent_of};
ghost use Rattle.roster.specs.Series.{Right};
ghost use Rattle.sequencing.specs.Memory.{memory};

use matching::{Ready, Window};
use penalty::{CHANNELS, Penalty};
use roster::{Answer, Call, Refusal, play};
use round::Readings;

// How many calls a series has at most: an add for each channel, and the question.
const CALLS: usize = CHANNELS + 1;

// The reply to a question on a new roster over a penalty, to which the channels of a table are added.
pub(crate) fn ask<P: Penalty + Drop>(
    penalty: P,
    readings: &Readings,
    question: Call,
    windows: &mut [Window],
    ready: &mut [Ready],
    list: &mut [u8],
) -> Result<Answer, Refusal>
    requires { lengths (memory windows.old ready.old list.old) ≡ lent_of question }
    ensures { Right (P.cost penalty) readings.now.by_channel question
        (memory windows.old ready.old list.old) (memory windows.new ready.new list.new) result }
{
    let mut calls = [question; CALLS];
    let channels = put_adds(readings, &mut calls);
    let mut replies = [Ok(Answer::Done); CALLS];
    let series = &calls[..=channels];
    // There are enough replies, and just the memory that the question is lent.
    let Ok(_) = play(penalty, series, &mut replies, windows, ready, list) else {
        unreachable!();
    };
    replies[channels]
}

// Puts an add for each channel of a table in front of the calls, and answers how many.
fn put_adds(readings: &Readings, calls: &mut [Call; CALLS]) -> usize
    ensures { AreAdds readings.now.by_channel calls.old calls.new result }
{
    let mut count = 0;
    for channel in 0..CHANNELS as u8 {
        let readings = readings.of(channel);
        if readings > 0 {
            calls[count] = Call::Add { channel, readings };
            count += 1;
        }
    }
    count
}
