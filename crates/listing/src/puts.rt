// The lines of an answer, put one after another.
ghost use Rattle.listing.specs.Answers.{best_rows, row_count};
ghost use Rattle.listing.specs.Puts.{IsListable, IsPut};

use crate::answers::{below_line, block_line};
use crate::rows::put_rows;
use job::Answer;
use lines::Line;
use matching::Window;
use penalty::LIMIT;
use quotes::figure;
use sequencing::{Best, Outcome};

/// The most lines of an answer: the first, one for each slot, and the last.
pub(crate) const ANSWER_LINES: usize = LIMIT as usize + 2;

// Puts the lines of an answer, with the readings of its list in the first windows, and answers how many.
pub(crate) fn put_lines(
    answer: &Answer,
    windows: &[Window],
    lines: &mut [Line; ANSWER_LINES],
) -> usize
    requires { IsListable (row_count answer.now) windows.now }
    ensures { IsPut answer.now windows.now lines.new result }
{
    match *answer {
        Answer::Done => 0,
        Answer::Within {
            bound,
            largest,
            total,
        } => {
            let slots = usize::from(total);
            lines[0] = Line::Within { bound, largest };
            put_rows(&windows[..slots], &mut lines[1..=slots]);
            slots + 1
        }
        Answer::Over { bound, block } => {
            lines[0] = Line::Over { bound };
            lines[1] = Line::Blocked(block_line(block));
            2
        }
        Answer::Best(best) => put_best(&best, windows, lines),
    }
}

// The same for a best.
fn put_best(best: &Best, windows: &[Window], lines: &mut [Line; ANSWER_LINES]) -> usize
    requires { IsListable (best_rows best.now.total best.now.outcome) windows.now }
    ensures { IsPut (Answer.Best best.now) windows.now lines.new result }
{
    match best.outcome {
        Outcome::Least { least, below } => {
            let slots = usize::from(best.total);
            let figure = figure(least, best.total).unwrap();
            lines[0] = Line::Least { least, figure };
            put_rows(&windows[..slots], &mut lines[1..=slots]);
            lines[slots + 1] = Line::Below(below_line(below));
            slots + 2
        }
        Outcome::NoLeast(block) => {
            lines[0] = Line::NoLeast;
            lines[1] = Line::Blocked(block_line(block));
            2
        }
    }
}
