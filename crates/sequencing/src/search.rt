// The least bound that has a list: the search by halves.
ghost use Rattle.std.specs.Prelude.{◌≡◌, ◌<◌, ◌≤◌, sum, drop, IfOk, IfErr};
ghost use Rattle.sequencing.specs.Memory.{IsCut, memory};
ghost use Rattle.sequencing.specs.Sequences.{IsBlock};
ghost use Rattle.sequencing.specs.Searches.{HasLargest, Searched};

use crate::answer::{Block, Outcome};
use crate::sequence::sequence;
use matching::{Ready, Window};
use penalty::{Penalty, TOP};
use round::Readings;

// Tries a bound: the largest cost of the list found there, or the block.
fn try_bound<P: Penalty>(
    penalty: &P,
    readings: &Readings,
    bound: u64,
    windows: &mut [Window],
    ready: &mut [Ready],
    list: &mut [u8],
) -> Result<u64, Block>
    requires some { 0 < sum readings.now.by_channel }
    requires cut { IsCut (sum readings.now.by_channel) (memory windows.old ready.old list.old) }
    ensures ready { drop 64 ready.new ≡ drop 64 ready.old }
    ensures list { IfOk result (λ cost. (cost ≤ bound) × HasLargest (P.cost penalty.now) readings.now.by_channel cost) }
    ensures block { IfErr result (IsBlock (P.cost penalty.now) readings.now.by_channel bound) }
{
    sequence(penalty, readings, bound, windows, ready, list)?;
    // The list is complete, so that the audit refuses nothing.
    let largest = readings.audit(penalty, list).unwrap();
    Ok(largest.cost)
}

// The least bound with the block below it, or the block one below the forbidden cost.
pub(crate) fn search<P: Penalty>(
    penalty: &P,
    readings: &Readings,
    windows: &mut [Window],
    ready: &mut [Ready],
    list: &mut [u8],
) -> Outcome
    requires some { 0 < sum readings.now.by_channel }
    requires cut { IsCut (sum readings.now.by_channel) (memory windows.old ready.old list.old) }
    ensures ready { drop 64 ready.new ≡ drop 64 ready.old }
    ensures searched { Searched (P.cost penalty.now) readings.now.by_channel result }
{
    let mut high = match try_bound(penalty, readings, TOP - 1, windows, ready, list) {
        Ok(cost) => cost,
        Err(block) => return Outcome::NoLeast(block),
    };
    // No list is within a bound below `low`, and `below` is the block at the bound before it; `high` is the largest cost of a list.
    let mut low = 0;
    let mut below = None;
    while low < high {
        let bound = (low + high - 1) / 2;
        match try_bound(penalty, readings, bound, windows, ready, list) {
            Ok(cost) => high = cost,
            Err(block) => {
                low = bound + 1;
                below = Some(block);
            }
        }
    }
    Outcome::Least { least: high, below }
}
