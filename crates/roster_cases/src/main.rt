// Plays many series of calls on new rosters, case after case on standard input, and prints each reply.
#![tactic(auto)]

mod alone;
mod lines;
mod query;
#[cfg(test)]
mod tests;

use alone::{begins_as, called, has_list, memory};
use cases::Cases;
use lines::{Context, write_channels};
use penalty::{
    AbsoluteDeviation, Band, Layered, Penalty, SettingRefusal, Stop, Threshold, TwoSided, Weights,
};
use query::{Bottom, Query, Settings};
use roster::{Answer, Call, Refusal, Roster, Sizes, play};
use std::alloc::Global;
use std::fmt::Write;
use std::io::Read;
use test_support::{Centred, Memory};

// The lines of a case under a penalty.
fn lines_of<P: Penalty + Copy + Drop>(
    heap: Global,
    penalty: P,
    query: &Query,
) -> anyhow::Result<String> {
    let calls = query.calls(heap)?;
    let mut replies = vec![in heap; Ok(Answer::Done); usize::from(query.replies)]?;
    let mut all = memory(heap, query.room)?;
    let mut lines = String::new(heap);
    let played = play(
        penalty,
        &calls,
        &mut replies,
        &mut all.windows,
        &mut all.ready,
        &mut all.list,
    );
    match played {
        Ok(roster) => {
            write_replies(heap, &mut lines, penalty, &calls, &replies, &all)?;
            write_channels(&mut lines, roster.readings())?;
        }
        Err(_penalty) => writeln!(lines, "TOO LITTLE")?,
    }
    Ok(lines)
}

// Writes the reply to each call of a series, and says where the call by itself gives another, or leaves other memory.
fn write_replies<P: Penalty + Copy + Drop>(
    heap: Global,
    lines: &mut String,
    penalty: P,
    calls: &[Call],
    replies: &[Result<Answer, Refusal>],
    all: &Memory,
) -> anyhow::Result<()> {
    let mut roster = Roster::new(penalty);
    let mut start = Sizes::NONE;
    for (&call, &reply) in calls.iter().zip(replies) {
        let readings = *roster.readings();
        let mut own = memory(heap, call.lent())?;
        let alone = called(&mut own, &mut roster, call);
        let same = !has_list(reply) || begins_as(&own, all, start, usize::from(readings.total()));
        if alone != reply || !same {
            writeln!(lines, "NOT THE SAME ALONE")?;
        }
        let context = Context {
            penalty: &penalty,
            readings: &readings,
            windows: &own.windows,
            list: &own.list,
        };
        context.write_reply(lines, call, reply)?;
        start.windows = start.windows.saturating_add(call.lent().windows);
        start.list = start.list.saturating_add(call.lent().list);
    }
    Ok(())
}

// The layers of a case, from the bottom up.
fn layers_of(settings: &Settings) -> Result<(Weights, Band, Stop), SettingRefusal> {
    let mut weights = Weights::new();
    for (channel, &weight) in (0u8..).zip(&settings.weights) {
        weights.set(channel, weight)?;
    }
    let band = Band {
        tolerance: Threshold::try_from(settings.tolerance)?,
    };
    let stop = Stop {
        limit: Threshold::try_from(settings.limit)?,
    };
    Ok((weights, band, stop))
}

// The lines of a case over a bottom, under its pile of layers.
fn lines_over<P: Penalty + Copy + Drop>(
    heap: Global,
    below: P,
    query: &Query,
) -> anyhow::Result<String> {
    match layers_of(&query.settings) {
        Ok((weights, band, stop)) => {
            let banded = Layered::over(Layered::over(below, weights), band);
            lines_of(heap, Layered::over(banded, stop), query)
        }
        Err(refusal) => Ok(format!(in heap; "REFUSED {}\n", refusal.number())?),
    }
}

fn main(rt: HostRuntime) -> anyhow::Result<()> {
    let mut input = Vec::new(rt.alloc());
    rt.stdin().read_to_end(&mut input)?;
    for query in Cases::<Query>::new(&input) {
        let lines = match query.bottom {
            Bottom::Absolute => lines_over(rt.alloc(), AbsoluteDeviation, &query)?,
            Bottom::TwoSided => lines_over(rt.alloc(), TwoSided, &query)?,
            Bottom::Centred => lines_over(
                rt.alloc(),
                Centred {
                    centres: query.centres,
                },
                &query,
            )?,
        };
        print!(rt; "{lines}")?;
    }
    Ok(())
}
