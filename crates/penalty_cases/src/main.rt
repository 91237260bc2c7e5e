// Checks rows for an own table and asks piles of layers for costs, case after case on standard input, and prints each answer.
#![tactic(auto)]

mod pile;
mod query;
#[cfg(test)]
mod row_tests;
#[cfg(test)]
mod tests;

use cases::Cases;
use penalty::{
    AbsoluteDeviation, Band, Layers, OwnTable, Question, RowRefusal, SettingRefusal, Side, Stop,
    Threshold, TwoSided, Weights,
};
use pile::pile_cost;
use query::{Bottom, Query, Settings};
use std::alloc::Global;
use std::io::Read;
use test_support::numbers;

// The layers with these settings.
fn layers_of(settings: Settings) -> Result<Layers, SettingRefusal> {
    let mut weights = Weights::new();
    weights.set(settings.channel, settings.weight)?;
    Ok(Layers {
        weights,
        band: Band {
            tolerance: Threshold::try_from(settings.tolerance)?,
        },
        stop: Stop {
            limit: Threshold::try_from(settings.limit)?,
        },
    })
}

// The cost of a question under layers over a bottom; the own table is this one.
fn cost(bottom: Bottom, table: OwnTable, layers: Layers, question: Question) -> u64 {
    match bottom {
        Bottom::Absolute => pile_cost(AbsoluteDeviation, layers, question),
        Bottom::TwoSided => pile_cost(TwoSided, layers, question),
        Bottom::OwnTable => pile_cost(table, layers, question),
    }
}

// The name of a row.
fn name(row: Side) -> &'static str {
    match row {
        Side::Ahead => "AHEAD",
        Side::Behind => "BEHIND",
    }
}

// The line of a check of rows.
fn checked(heap: Global, ahead: &[u32], behind: &[u32]) -> anyhow::Result<String> {
    let Err(refusal) = OwnTable::check(ahead, behind) else {
        return Ok(String::from_str(heap, "ROWS")?);
    };
    let number = refusal.number();
    Ok(match refusal {
        RowRefusal::Length { row } | RowRefusal::First { row } => {
            format!(in heap; "REFUSED {number} {}", name(row))?
        }
        RowRefusal::Falls { row, step } => {
            format!(in heap; "REFUSED {number} {} STEP {step}", name(row))?
        }
    })
}

fn main(rt: HostRuntime) -> anyhow::Result<()> {
    let mut input = Vec::new(rt.alloc());
    rt.stdin().read_to_end(&mut input)?;
    let mut rows = (Vec::new(rt.alloc()), Vec::new(rt.alloc()));
    for query in Cases::<Query>::new(&input) {
        match query {
            Query::Rows { ahead, behind } => {
                rows = (numbers(rt.alloc(), ahead)?, numbers(rt.alloc(), behind)?);
                println!(rt; "{}", checked(rt.alloc(), &rows.0, &rows.1)?)?;
            }
            Query::Cost {
                bottom,
                settings,
                question,
            } => match layers_of(settings) {
                Ok(layers) => {
                    let table = OwnTable::new(&rows.0, &rows.1);
                    println!(rt; "{}", cost(bottom, table, layers, question))?;
                }
                Err(refusal) => println!(rt; "REFUSED {}", refusal.number())?,
            },
        }
    }
    Ok(())
}
