// All complete lists of a table, visited one after another, with what each costs at most.
ghost use Rattle.std.specs.Prelude.{◌≡◌};
ghost use Rattle.round.specs.Lists.{Channel, LargestCost, Sound, cost_at, count as x_of};
ghost use Rattle.bruteforce.specs.Largest.{LargestOver};

use crate::arrangement::next_arrangement;
use anyhow::bail;
use penalty::{CHANNELS, Penalty, Question, TOP};
use round::Readings;
use std::alloc::{AllocError, Global};

// The most lists that are visited: as many as a round of 7 readings can have, 7!.
const MOST_LISTS: u32 = 5_040;

/// What all complete lists of a table come to.
#[derive(Clone, Copy, PartialEq, Eq, Debug)]
pub struct Enumeration {
    /// How many complete lists there are.
    pub lists: u32,
    /// The smallest largest cost of any, TOP where all are forbidden.
    pub smallest: u64,
}

impl Enumeration {
    /// Visits each complete list of a table, unless there are more than 5,040.
    pub fn of<P: Penalty>(
        heap: Global,
        penalty: &P,
        readings: &Readings,
    ) -> anyhow::Result<Enumeration> {
        let mut list = first_arrangement(heap, readings)?;
        let mut smallest = TOP;
        for before in 0..MOST_LISTS {
            smallest = smallest.min(largest_cost(penalty, readings, &list));
            if !next_arrangement(&mut list) {
                return Ok(Enumeration {
                    lists: before + 1,
                    smallest,
                });
            }
        }
        bail!("there are more than {MOST_LISTS} lists");
    }
}

/// The complete list of a table that has the channels one after another, the first in lexicographic order.
pub fn first_arrangement(heap: Global, readings: &Readings) -> Result<Vec<u8>, AllocError> {
    let mut list = Vec::new(heap);
    for channel in 0..CHANNELS as u8 {
        let length = list.len().saturating_add(usize::from(readings.of(channel)));
        list.resize(length, channel)?;
    }
    Ok(list)
}

/// The largest cost of a list over all its moments.
pub fn largest_cost<P: Penalty>(penalty: &P, readings: &Readings, list: &[u8]) -> u64
    ensures { Sound readings.now.by_channel → LargestCost (P.cost penalty.now) readings.now.by_channel list.now result }
{
    let mut largest = 0;
    for slot in 0..readings.total() + 1 {
        largest = largest.max(largest_after(penalty, readings, list, slot));
    }
    largest
}

// The largest cost of any channel after a slot.
fn largest_after<P: Penalty>(penalty: &P, readings: &Readings, list: &[u8], slot: u16) -> u64
    ensures { LargestOver (cost_at (P.cost penalty.now) readings.now.by_channel list.now) (λ k c. (k ≡ slot) × Channel readings.now.by_channel c) result }
{
    let mut largest = 0;
    for channel in 0..CHANNELS as u8 {
        if readings.of(channel) > 0 {
            largest = largest.max(cost_after(penalty, readings, list, slot, channel));
        }
    }
    largest
}

// What a channel costs after a slot.
fn cost_after<P: Penalty>(
    penalty: &P,
    readings: &Readings,
    list: &[u8],
    slot: u16,
    channel: u8,
) -> u64
    ensures { result ≡ cost_at (P.cost penalty.now) readings.now.by_channel list.now slot channel }
{
    penalty.cost(Question {
        slots: readings.total(),
        channel,
        readings: readings.of(channel),
        count: count(list, channel, slot),
        slot,
    })
}

/// How often a channel stands in the first slots of a list.
pub fn count(list: &[u8], channel: u8, slots: u16) -> u16
    ensures { result ≡ x_of list.now channel slots }
{
    list.iter()
        .take(usize::from(slots))
        .filter(|&&other| other == channel)
        .count() as u16
}
