// Runs the audit over many inputs, one after another on standard input, and prints the line of each; and the dearest moments of
// the list with their costs.
#![tactic(auto)]

use cases::{Case, Cases};
use heap::Heap;
use penalty::{AbsoluteDeviation, CHANNELS};
use report::{LINE_BYTES, report_absolute};
use round::{CostedMoment, Readings, Refusal};
use std::alloc::Global;
use std::fmt::Write as _;
use std::io::{Read, Write};

// The input of one audit.
#[derive(Clone, Copy)]
struct Input<'a>(&'a [u8]);

// An input stands after its length in four bytes.
impl<'a> Case<'a> for Input<'a> {
    fn split_first(bytes: &'a [u8]) -> Option<(Input<'a>, &'a [u8])> {
        let (length, rest) = bytes.split_first_chunk()?;
        let (input, rest) = rest.split_at_checked(u32::from_be_bytes(*length) as usize)?;
        Some((Input(input), rest))
    }
}

// How many places the heap of the dearest moments has, in turn.
const PLACES: [usize; 6] = [0, 1, 2, 5, 64, 300];

// The dearest moments of an input, each after its cost, as they leave a heap with so many places; or why it is refused.
fn dearest_line(heap: Global, Input(case): Input, places: usize) -> anyhow::Result<String> {
    let (front, list) = case.split_at(case.len().min(2 * CHANNELS));
    let (pairs, _rest) = front.as_chunks::<2>();
    let row: Vec<u16> = pairs
        .iter()
        .map(|&pair| u16::from_be_bytes(pair))
        .collect(heap)?;
    let mut memory = vec![in heap; CostedMoment::default(); places]?;
    let mut kept = Heap::new(&mut memory);
    let mut line = format!(in heap; "DEAREST")?;
    match fill(&row, list, &mut kept) {
        Ok(()) => {
            while let Some(moment) = kept.pop() {
                write!(
                    line,
                    " {} ({},{})",
                    moment.cost, moment.slot, moment.channel
                )?;
            }
        }
        Err(refusal) => write!(line, " REFUSED {}", refusal.number())?,
    }
    Ok(line)
}

// Fills a heap with the dearest moments of a list for the channels of a row.
fn fill(row: &[u16], list: &[u8], kept: &mut Heap<'_, CostedMoment>) -> Result<(), Refusal> {
    Readings::try_from(row)?.dearest(&AbsoluteDeviation, list, kept)
}

fn main(rt: HostRuntime) -> anyhow::Result<()> {
    let mut input = Vec::new(rt.alloc());
    rt.stdin().read_to_end(&mut input)?;
    let mut line = [0; LINE_BYTES];
    for (case, &places) in Cases::<Input>::new(&input).zip(PLACES.iter().cycle()) {
        let length = report_absolute(case.0, &mut line);
        rt.stdout().write_all(&line[..length])?;
        println!(rt; "{}", dearest_line(rt.alloc(), case, places)?)?;
    }
    Ok(())
}

#[cfg(test)]
mod tests {
    use penalty::{AbsoluteDeviation, Penalty, Question, TOP};
    use round::{CostedMoment, Refusal, audit};

    // The audit of readings for channels 0 and 1.
    fn audited(first: u16, second: u16, list: &[u8]) -> Result<CostedMoment, Refusal> {
        let mut row = [0; 64];
        row[0] = first;
        row[1] = second;
        audit(&AbsoluteDeviation, &row, list)
    }

    #[test]
    fn audits(rt: HostRuntime) {
        let even = CostedMoment {
            cost: 1,
            slot: 1,
            channel: 0,
        };
        assert_eq!(rt; audited(2, 1, &[0, 1, 0]), Ok(even));
        let uneven = CostedMoment {
            cost: 2,
            slot: 2,
            channel: 0,
        };
        assert_eq!(rt; audited(2, 1, &[0, 0, 1]), Ok(uneven));
    }

    #[test]
    fn refuses_a_row(rt: HostRuntime) {
        let short = audit(&AbsoluteDeviation, &[1; 63], &[]);
        assert_eq!(rt; short, Err(Refusal::RowLength));
        let long = audit(&AbsoluteDeviation, &[1; 65], &[]);
        assert_eq!(rt; long, Err(Refusal::RowLength));
        assert_eq!(rt; audited(4097, 0, &[]), Err(Refusal::ReadingsAboveLimit));
        assert_eq!(rt; audited(4096, 1, &[]), Err(Refusal::TotalAboveLimit));
        assert_eq!(rt; audited(0, 0, &[]), Err(Refusal::NoChannel));
    }

    #[test]
    fn refuses_a_list(rt: HostRuntime) {
        assert_eq!(rt; audited(2, 1, &[0, 1]), Err(Refusal::ListLength));
        assert_eq!(rt;
            audited(2, 1, &[0, 2, 9]),
            Err(Refusal::NotAChannel { slot: 2 })
        );
        assert_eq!(rt;
            audited(2, 1, &[1, 1, 0]),
            Err(Refusal::WrongCount { channel: 0 })
        );
    }

    // The cost of a question under the absolute deviation; five numbers, so that the tests read as a table.
    fn cost(slots: u16, channel: u8, readings: u16, count: u16, slot: u16) -> u64 {
        AbsoluteDeviation.cost(Question {
            slots,
            channel,
            readings,
            count,
            slot,
        })
    }

    #[test]
    fn costs(rt: HostRuntime) {
        assert_eq!(rt; cost(3, 0, 2, 1, 1), 1);
        assert_eq!(rt; cost(3, 0, 2, 0, 1), 2);
        assert_eq!(rt; cost(4096, 63, 4096, 4096, 0), 16_777_216);
        assert_eq!(rt; AbsoluteDeviation.depth(), 0);
    }

    #[test]
    fn forbids_outside_the_domain(rt: HostRuntime) {
        assert_eq!(rt; cost(0, 0, 1, 0, 0), TOP);
        assert_eq!(rt; cost(4097, 0, 1, 0, 0), TOP);
        assert_eq!(rt; cost(3, 64, 2, 1, 1), TOP);
        assert_eq!(rt; cost(3, 0, 0, 0, 1), TOP);
        assert_eq!(rt; cost(3, 0, 4097, 1, 1), TOP);
        assert_eq!(rt; cost(3, 0, 2, 3, 1), TOP);
        assert_eq!(rt; cost(3, 0, 2, 1, 4), TOP);
    }
}
