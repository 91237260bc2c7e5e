// The answers of list and best, held against the enumeration of all complete lists.
ghost use Rattle.std.specs.Prelude.{◌≡◌, ℕ, ◌<◌, ◌↔◌, IsTrue, MatchOption, sum};
ghost use Rattle.round.specs.Lists.{Complete, LargestCost, Sound, count as x_of, readings as d_of};

use crate::enumeration::{Enumeration, count, largest_cost};
use penalty::{CHANNELS, Penalty, TOP};
use roster::Refusal;
use round::Readings;
use sequencing::{Best, Listed, Outcome};

/// What all complete lists of a table come to under a penalty: what the answers are held against.
#[derive(Clone, Copy)]
pub struct Expected<'a, P> {
    pub penalty: &'a P,
    pub readings: &'a Readings,
    pub enumeration: Enumeration,
}

impl<'a, P: Penalty> Expected<'a, P> {
    /// The bounds to ask about, in ascending order: 0, those around the smallest largest cost, and TOP - 1.
    pub fn bounds(&self) -> [u64; 5] {
        let smallest = self.enumeration.smallest;
        [
            0,
            smallest.saturating_sub(1),
            smallest.min(TOP - 1),
            smallest.saturating_add(1).min(TOP - 1),
            TOP - 1,
        ]
    }

    /// Whether an answer of list at a bound is right: a list exactly where there is one within the bound, and that complete and
    /// within the bound.
    pub fn agrees_listed(&self, bound: u64, answer: Result<Listed, Refusal>, list: &[u8]) -> bool {
        let exists = self.enumeration.smallest <= bound;
        match answer {
            Ok(Listed::Within) => exists && self.costs(list).is_some_and(|cost| cost <= bound),
            Ok(Listed::Over(_block)) => !exists,
            Err(_refusal) => false,
        }
    }

    /// Whether an answer of best is right: the smallest largest cost, with a complete list that has it; or none where all lists
    /// are forbidden.
    pub fn agrees_best(&self, answer: Result<Best, Refusal>, list: &[u8]) -> bool {
        let smallest = self.enumeration.smallest;
        match answer.map(|best| best.outcome) {
            Ok(Outcome::Least { least, .. }) => {
                least == smallest && self.costs(list) == Some(least)
            }
            Ok(Outcome::NoLeast(_block)) => smallest == TOP,
            Err(_refusal) => false,
        }
    }

    // The largest cost of a list, if it is complete.
    fn costs(&self, list: &[u8]) -> Option<u64>
        ensures { let t = self.now.readings.now.by_channel in
            MatchOption result (¬ Complete t list.now) (λ n. Complete t list.now × (Sound t → LargestCost (P.cost self.now.penalty.now) t list.now n)) }
    {
        is_complete(self.readings, list).then(|| largest_cost(self.penalty, self.readings, list))
    }
}

// Whether a list has as many slots as the table has readings, and each channel of the table, and no other, as often as it has.
#[tactic(auto, using(crate::proofs::Counted::complete_from, crate::proofs::Counted::complete_each))]
fn is_complete(readings: &Readings, list: &[u8]) -> bool
    ensures { IsTrue result ↔ Complete readings.now.by_channel list.now }
{
    if list.len() != usize::from(readings.total()) {
        return false;
    }
    list.iter().all(|&channel| readings.of(channel) > 0) && has_each(readings, list)
}

// Whether each channel number stands in the slots of the round as often as the table says.
fn has_each(readings: &Readings, list: &[u8]) -> bool
    ensures { IsTrue result ↔ ((c : ℕ) → c < 64 → x_of list.now c (sum readings.now.by_channel) ≡ d_of readings.now.by_channel c) }
{
    for channel in 0..CHANNELS as u8 {
        if count(list, channel, readings.total()) != readings.of(channel) {
            return false;
        }
    }
    true
}
