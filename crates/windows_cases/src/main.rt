// Finds the windows of many tables, case after case on standard input, and prints each answer.
#![tactic(auto)]

#[cfg(test)]
mod tests;

use cases::{Case, Cases};
use matching::{CHANNELS, LIMIT, Window};
use penalty::{AbsoluteDeviation, Penalty, TwoSided};
use round::Readings;
use std::alloc::Global;
use std::fmt::Write;
use std::io::Read;
use test_support::{CENTRES, Centred, EMPTY};
use windows::{Moment, Unfilled, fill, steiner_yeomans};

// How many places a case may be lent at most.
const MOST_PLACES: usize = LIMIT as usize;

// How many bytes a channel has: its number (1) and its readings (2).
const CHANNEL_BYTES: usize = 3;

// Which penalty a case is about.
#[derive(Clone, Copy, PartialEq, Eq)]
enum Chosen {
    Absolute,
    TwoSided,
    Centred,
}

impl From<u8> for Chosen {
    fn from(code: u8) -> Chosen {
        match code {
            0 => Chosen::Absolute,
            1 => Chosen::TwoSided,
            _ => Chosen::Centred,
        }
    }
}

// What is asked: the windows of a table at a bound under a penalty, in so many places.
#[derive(Clone, Copy)]
struct Query<'a> {
    penalty: Chosen,
    bound: u64,
    centres: [u8; CENTRES],
    places: u16,
    channels: &'a [u8],
}

impl<'a> Case<'a> for Query<'a> {
    fn split_first(bytes: &'a [u8]) -> Option<(Query<'a>, &'a [u8])> {
        let [penalty, rest @ ..] = bytes else {
            return None;
        };
        let (bound, rest) = rest.split_first_chunk::<8>()?;
        let (centres, rest) = rest.split_first_chunk::<CENTRES>()?;
        let [p1, p0, channels, rest @ ..] = rest else {
            return None;
        };
        let (channels, rest) = rest.split_at_checked(usize::from(*channels) * CHANNEL_BYTES)?;
        let query = Query {
            penalty: Chosen::from(*penalty),
            bound: u64::from_be_bytes(*bound),
            centres: *centres,
            places: u16::from_be_bytes([*p1, *p0]),
            channels,
        };
        Some((query, rest))
    }
}

// The row of numbers that the bytes of the channels give.
fn row_of(bytes: &[u8]) -> [u16; CHANNELS] {
    let mut row = [0; CHANNELS];
    let (channels, _rest) = bytes.as_chunks::<CHANNEL_BYTES>();
    for &[channel, r1, r0] in channels {
        if let Some(readings) = row.get_mut(usize::from(channel)) {
            *readings = u16::from_be_bytes([r1, r0]);
        }
    }
    row
}

// The windows of the case under its penalty.
fn filled(query: &Query, readings: &Readings, places: &mut [Window]) -> Result<(), Unfilled> {
    let centred = Centred {
        centres: query.centres,
    };
    match query.penalty {
        Chosen::Absolute => fill(&AbsoluteDeviation, readings, query.bound, places),
        Chosen::TwoSided => fill(&TwoSided, readings, query.bound, places),
        Chosen::Centred => fill(&centred, readings, query.bound, places),
    }
}

// The line of what a case is answered.
fn line_of(heap: Global, query: &Query, readings: &Readings) -> anyhow::Result<String> {
    let mut memory = [EMPTY; MOST_PLACES];
    let lent = usize::from(query.places).min(MOST_PLACES);
    let mut line = String::new(heap);
    match filled(query, readings, &mut memory[..lent]) {
        Ok(()) => {
            write!(line, "WINDOWS")?;
            for window in &memory {
                if window.slot == 0 {
                    let Window {
                        channel,
                        reading,
                        earliest,
                        latest,
                        ..
                    } = *window;
                    write!(line, " {channel}:{reading}:{earliest}-{latest}")?;
                }
            }
        }
        Err(Unfilled::Places) => write!(line, "REFUSED PLACES")?,
        Err(Unfilled::Blocked(Moment { slot, channel })) => write!(
            line,
            "MOMENT {slot} {channel}"
        )?,
        Err(Unfilled::Shut(window)) => {
            let Window {
                channel,
                reading,
                earliest,
                latest,
                slot,
            } = window;
            write!(line, "SHUT {channel} {reading} {earliest} {latest} {slot}")?;
        }
    }
    Ok(line)
}

// The windows of all readings by Steiner and Yeomans' formulas.
fn formulas_of(heap: Global, bound: u64, readings: &Readings) -> anyhow::Result<String> {
    let mut line = String::new(heap);
    write!(line, "FORMULAS")?;
    for channel in 0..CHANNELS as u8 {
        for reading in 1..=readings.of(channel) {
            let found = steiner_yeomans(readings.total(), readings.of(channel), reading, bound);
            if let Some((earliest, latest)) = found {
                write!(line, " {channel}:{reading}:{earliest}-{latest}")?;
            }
        }
    }
    Ok(line)
}

fn main(rt: HostRuntime) -> anyhow::Result<()> {
    let mut input = Vec::new(rt.alloc());
    rt.stdin().read_to_end(&mut input)?;
    for query in Cases::<Query>::new(&input) {
        let row = row_of(query.channels);
        let Ok(readings) = Readings::try_from(row.as_slice()) else {
            println!(rt; "NO TABLE")?;
            continue;
        };
        let line = line_of(rt.alloc(), &query, &readings)?;
        println!(rt; "{line}")?;
        if query.penalty == Chosen::Absolute {
            let formulas = formulas_of(rt.alloc(), query.bound, &readings)?;
            println!(rt; "{formulas}")?;
        }
    }
    Ok(())
}
