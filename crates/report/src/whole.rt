// The audit of an input, and the line of its answer.
ghost use Rattle.penalty.specs.Absolute.{absolute};
ghost use Rattle.report.specs.Report.{Reported};

use crate::input::{list_of, row_of};
use crate::line::line_of;
use lines::LINE_BYTES;
use penalty::{AbsoluteDeviation, Penalty};
use round::audit;

/// Audits the list of an input, writes the line of the answer at the start of the memory, and
/// answers its length.
// Memory and a length, and no text by value: docs/RULES.md has the caller lend the memory.
pub fn report<P: Penalty>(penalty: &P, input: &[u8], memory: &mut [u8; LINE_BYTES]) -> usize
    ensures { Reported (P.cost penalty.now) input.now memory.old memory.new result }
{
    let row = row_of(input);
    let answer = audit(penalty, &row, list_of(input));
    line_of(answer).write(memory).unwrap()
}

/// The same under the absolute deviation.
// Memory and a length, as above.
pub fn report_absolute(input: &[u8], memory: &mut [u8; LINE_BYTES]) -> usize
    ensures { Reported absolute input.now memory.old memory.new result }
{
    report(&AbsoluteDeviation, input, memory)
}
