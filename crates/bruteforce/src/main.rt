// Holds the lists and the leasts of many rosters, group after group on standard input, against an enumeration of all complete
// lists, and prints what was counted of each group and of all.
#![tactic(auto)]

mod arrangement;
mod asking;
mod comparison;
mod enumeration;
mod query;
mod tally;
#[cfg(test)]
mod tests;

use asking::tally_of;
use cases::Cases;
use penalty::{AbsoluteDeviation, OwnTable, TwoSided};
use query::{Bottom, Group};
use std::alloc::Global;
use std::io::Read;
use std::str::from_utf8;
use tally::Tally;
use test_support::numbers;

// The counts of a group.
fn tally_of_group(heap: Global, group: &Group) -> anyhow::Result<Tally> {
    let rows = numbers(heap, group.rows)?;
    let (ahead, behind) = rows.split_at(rows.len() / 2);
    let table = OwnTable::new(ahead, behind);
    let mut tally = Tally::default();
    for query in group.rosters() {
        let more = match group.bottom {
            Bottom::Absolute => tally_of(heap, AbsoluteDeviation, &query)?,
            Bottom::TwoSided => tally_of(heap, TwoSided, &query)?,
            Bottom::OwnTable => tally_of(heap, table, &query)?,
        };
        tally = tally.and(more);
    }
    Ok(tally)
}

fn main(rt: HostRuntime) -> anyhow::Result<()> {
    let mut input = Vec::new(rt.alloc());
    rt.stdin().read_to_end(&mut input)?;
    let mut all = Tally::default();
    for group in Cases::<Group>::new(&input) {
        let tally = tally_of_group(rt.alloc(), &group)?;
        println!(rt; "{} {tally}", from_utf8(group.name)?)?;
        all = all.and(tally);
    }
    println!(rt; "ALL {all}")?;
    Ok(())
}
