// One record of a job, and the lines that it is answered with.
ghost use Rattle.std.specs.Prelude.{◌≡◌, length};
ghost use Rattle.job.specs.Jobs.{state_of};
ghost use Rattle.listing.specs.Steps.{Steps};

use crate::answers::fault_line;
use crate::puts::{ANSWER_LINES, put_lines};
use job::Job;
use lines::Line;
use matching::{Ready, Window};
use penalty::{CHANNELS, LIMIT, Penalty};

// How many lines are put for a record, and whether another record may be taken.
#[derive(Clone, Copy)]
pub(crate) enum Step {
    // The lines of an answer; the job goes on.
    Answered(usize),
    // The line of the fault, or none at the end of the file; the job takes no more records.
    Ended(usize),
}

// Takes the next record of a job, and puts its lines in front.
pub(crate) fn put_next<B: Penalty + Copy>(
    job: &mut Job<'_, B>,
    lines: &mut [Line; ANSWER_LINES],
) -> Step
    ensures bottom { job.new.held.bottom ≡ job.old.held.bottom }
    ensures long { length lines.new ≡ 4098 }
    ensures steps { Steps (B.cost job.old.held.bottom) (state_of job.old) (state_of job.new) lines.new result }
{
    let mut windows = [NO_WINDOW; LIMIT as usize];
    let mut ready = [NOT_READY; CHANNELS];
    let mut list = [0; LIMIT as usize];
    let next = match job.next(&mut windows, &mut ready, &mut list) {
        Ok(next) => next,
        Err(fault) => {
            lines[0] = fault_line(fault);
            return Step::Ended(1);
        }
    };
    let Some(answer) = next else {
        return Step::Ended(0);
    };
    Step::Answered(put_lines(&answer, &windows, lines))
}

// What stands in a window place before it is used.
const NO_WINDOW: Window = Window {
    channel: 0,
    reading: 0,
    earliest: 0,
    latest: 0,
    slot: 0,
};

// What stands in a ready place before it is used.
const NOT_READY: Ready = Ready {
    latest: 0,
    place: 0,
};
