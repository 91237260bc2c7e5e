// What each roster is asked, and what its answers count as.
use crate::comparison::Expected;
use crate::enumeration::Enumeration;
use crate::query::Query;
use crate::tally::Tally;
use anyhow::bail;
use penalty::{CHANNELS, Layers, Penalty, SettingRefusal, Threshold};
use roster::{Refusal, Roster};
use std::alloc::{AllocError, Global};
use test_support::Memory;

/// The counts of a roster over a bottom.
pub fn tally_of<P: Penalty + Copy + Drop>(
    heap: Global,
    bottom: P,
    query: &Query,
) -> anyhow::Result<Tally> {
    let Ok(layers) = layers_of(query) else {
        bail!("a setting is refused");
    };
    let penalty = layers.over(bottom);
    let Ok(roster) = roster_of(penalty, query) else {
        bail!("a channel is refused");
    };
    let enumeration = Enumeration::of(heap, &penalty, roster.readings())?;
    let expected = Expected {
        penalty: &penalty,
        readings: roster.readings(),
        enumeration,
    };
    let lists = ask_lists(heap, &roster, &expected)?;
    let best = ask_best(heap, &roster, &expected)?;
    Ok(Tally::roster(enumeration.lists).and(lists).and(best))
}

// The layers with the settings of a roster.
fn layers_of(query: &Query) -> Result<Layers, SettingRefusal> {
    let mut layers = Layers::new();
    for entry in query.entries() {
        layers.weights.set(entry.channel, entry.weight)?;
    }
    layers.band.tolerance = Threshold::try_from(query.tolerance)?;
    layers.stop.limit = Threshold::try_from(query.limit)?;
    Ok(layers)
}

// The roster with its channels.
fn roster_of<P: Drop>(penalty: P, query: &Query) -> Result<Roster<P>, Refusal> {
    let mut roster = Roster::new(penalty);
    for entry in query.entries() {
        roster.add(entry.channel, entry.readings)?;
    }
    Ok(roster)
}

// The counts of the lists at each of the bounds.
fn ask_lists<P: Penalty>(
    heap: Global,
    roster: &Roster<P>,
    expected: &Expected<P>,
) -> Result<Tally, AllocError> {
    let mut tally = Tally::default();
    let mut last = None;
    for bound in expected.bounds() {
        if last != Some(bound) {
            tally = tally.and(ask_list(heap, roster, expected, bound)?);
        }
        last = Some(bound);
    }
    Ok(tally)
}

// The counts of the list at a bound, over memory of its own.
fn ask_list<P: Penalty>(
    heap: Global,
    roster: &Roster<P>,
    expected: &Expected<P>,
    bound: u64,
) -> Result<Tally, AllocError> {
    let Memory {
        mut windows,
        mut ready,
        mut list,
    } = memory_for(heap, roster)?;
    let answer = roster.list(bound, &mut windows, &mut ready, &mut list);
    let agrees = expected.agrees_listed(bound, answer, &list);
    Ok(Tally::listed(answer, agrees))
}

// The counts of the best, over memory of its own.
fn ask_best<P: Penalty>(
    heap: Global,
    roster: &Roster<P>,
    expected: &Expected<P>,
) -> Result<Tally, AllocError> {
    let Memory {
        mut windows,
        mut ready,
        mut list,
    } = memory_for(heap, roster)?;
    let answer = roster.best(&mut windows, &mut ready, &mut list);
    let agrees = expected.agrees_best(answer, &list);
    Ok(Tally::best(answer, agrees))
}

// Just as much memory as a list of the roster needs, in which nothing stands.
fn memory_for<P>(heap: Global, roster: &Roster<P>) -> Result<Memory, AllocError> {
    let total = usize::from(roster.readings().total());
    Memory::new(heap, total, CHANNELS, total)
}
