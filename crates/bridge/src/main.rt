// Makes the quote of a bridge: its best list, the best with other readings of one channel for comparison, and the line of the quote.
#![tactic(auto)]

mod answers;
mod input;
mod memory;
#[cfg(test)]
mod tests;

use answers::answer;
use input::Bridge;
use penalty::AbsoluteDeviation;
use std::io::{BufWriter, Read, Write, writer};

fn main(rt: HostRuntime) -> anyhow::Result<()> {
    let mut input = Vec::new(rt.alloc());
    rt.stdin().read_to_end(&mut input)?;
    let mut out = BufWriter::new(rt.alloc(), writer(&rt))?;
    if let Some(bridge) = Bridge::parse(&input) {
        answer(&AbsoluteDeviation, bridge, &mut out)?;
    }
    out.flush()?;
    Ok(())
}
