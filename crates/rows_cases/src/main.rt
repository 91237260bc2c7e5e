// Answers many rows, case after case on standard input: the best of each, a trial of it, and the quote of its best.
#![tactic(auto)]

mod query;
mod quoting;
#[cfg(test)]
mod tests;
mod writing;

use cases::Cases;
use penalty::{AbsoluteDeviation, Layered, Penalty, Stop, Threshold, TwoSided};
use query::Query;
use quoting::write_quote;
use rows::{Trial, best, trial_best};
use std::alloc::Global;
use std::fmt::Write;
use std::io::Read;
use test_support::Memory;
use writing::{write_best, write_row};

// The lines of a case under a penalty.
fn lines_of<P: Penalty>(heap: Global, penalty: &P, query: &Query) -> anyhow::Result<String> {
    let mut row = query.row(heap)?;
    let mut memory = Memory::new(
        heap,
        usize::from(query.windows),
        usize::from(query.ready),
        usize::from(query.list),
    )?;
    let mut lines = String::new(heap);
    let answer = {
        let Memory {
            windows,
            ready,
            list,
        } = &mut memory;
        best(penalty, &row, windows, ready, list)
    };
    write_best(&mut lines, "BEST", answer, &memory.list)?;
    write_trial(&mut lines, penalty, query, &mut row, &mut memory)?;
    write_row(&mut lines, &row)?;
    if let Ok(best) = answer {
        write_quote(heap, &mut lines, best, penalty, query)?;
    }
    Ok(lines)
}

// Writes what the check of a trial says, and the best of the trial in two ways.
fn write_trial<P: Penalty>(
    lines: &mut String,
    penalty: &P,
    query: &Query,
    row: &mut [u16],
    memory: &mut Memory,
) -> anyhow::Result<()> {
    let Query {
        channel,
        readings,
        ..
    } = *query;
    let Memory {
        windows,
        ready,
        list,
    } = memory;
    match Trial::check(row, channel, readings) {
        Ok(()) => writeln!(lines, "CHECKED")?,
        Err(refusal) => writeln!(lines, "CHECK {}", refusal.number())?,
    }
    let tried = {
        let trial = Trial::new(row, channel, readings);
        trial.best(penalty, windows, ready, list)
    };
    write_best(lines, "TRIAL", tried, list)?;
    let tried = trial_best(penalty, row, channel, readings, windows, ready, list);
    write_best(lines, "TRIED", tried, list)
}

// The lines of a case over a bottom, under the limit of the case.
fn lines_over<P: Penalty + Drop>(heap: Global, bottom: P, query: &Query) -> anyhow::Result<String> {
    let limit = Threshold::try_from(query.limit).unwrap_or(Threshold::LARGEST);
    lines_of(heap, &Layered::over(bottom, Stop { limit }), query)
}

fn main(rt: HostRuntime) -> anyhow::Result<()> {
    let mut input = Vec::new(rt.alloc());
    rt.stdin().read_to_end(&mut input)?;
    for query in Cases::<Query>::new(&input) {
        let lines = if query.two_sided {
            lines_over(rt.alloc(), TwoSided, &query)?
        } else {
            lines_over(rt.alloc(), AbsoluteDeviation, &query)?
        };
        print!(rt; "{lines}")?;
    }
    Ok(())
}
