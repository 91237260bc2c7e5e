// What is answered about a bridge: its best list, the best of a trial, and its quote.
ghost use Rattle.std.specs.Prelude.{◌≡◌};

use crate::input::Bridge;
use crate::memory::Memory;
use lines::{Audited, LINE_BYTES, Line, Reading};
use matching::Window;
use penalty::{LIMIT, Penalty};
use quotes::{Draft, figure};
use rows::{Trial, best};
use sequencing::{Best, Outcome};
use std::io::Write;

/// Answers what is asked about a bridge.
pub fn answer<P: Penalty, W: Write>(
    penalty: &P,
    mut bridge: Bridge,
    out: &mut W,
) -> anyhow::Result<()> {
    let mut memory = Memory::new();
    let Memory {
        windows,
        ready,
        list,
    } = &mut memory;
    match best(penalty, &bridge.row, windows, ready, list) {
        Ok(found) => {
            print_least(found, out)?;
            print_slots(found, windows, out)?;
            print_trial(penalty, &mut bridge, &mut memory, out)?;
            print_quote(found, penalty, bridge.serial, out)
        }
        Err(refusal) => print_refused(refusal.number(), out),
    }
}

// Prints the least of a best, with its figure.
fn print_least<W: Write>(best: Best, out: &mut W) -> anyhow::Result<()> {
    let line = match best.outcome {
        Outcome::Least { least, .. } => Line::Least {
            least,
            figure: figure(least, best.total).unwrap(),
        },
        Outcome::NoLeast(_block) => Line::NoLeast,
    };
    line.print(out)?;
    Ok(())
}

// Prints the readings of a best list in the order of their slots.
fn print_slots<W: Write>(
    best: Best,
    windows: &mut [Window; LIMIT as usize],
    out: &mut W,
) -> anyhow::Result<()> {
    if matches!(best.outcome, Outcome::NoLeast(_)) {
        return Ok(());
    }
    let windows = &mut windows[..usize::from(best.total)];
    windows.sort_unstable_by_key(|window| window.slot);
    for window in windows.iter() {
        let line = Line::Reading(Reading {
            channel: window.channel,
            reading: window.reading,
            earliest: window.earliest,
            latest: window.latest,
            slot: window.slot,
        });
        line.print(out)?;
    }
    Ok(())
}

// Prints the least with the readings of the trial; the row of the bridge is then as it was.
fn print_trial<P: Penalty, W: Write>(
    penalty: &P,
    bridge: &mut Bridge,
    memory: &mut Memory,
    out: &mut W,
) -> anyhow::Result<()>
    ensures { bridge.new.row ≡ bridge.old.row }
{
    let Bridge {
        channel,
        readings,
        row,
        ..
    } = bridge;
    let Memory {
        windows,
        ready,
        list,
    } = memory;
    if let Err(refusal) = Trial::check(row, *channel, *readings) {
        return print_refused(refusal.number(), out);
    }
    let trial = Trial::new(row, *channel, *readings);
    let tried = trial.best(penalty, windows, ready, list);
    drop(trial);
    match tried {
        Ok(found) => print_least(found, out),
        Err(refusal) => print_refused(refusal.number(), out),
    }
}

// Drafts, issues and prints the quote of a best.
fn print_quote<P: Penalty, W: Write>(
    found: Best,
    penalty: &P,
    serial: u32,
    out: &mut W,
) -> anyhow::Result<()> {
    let draft = match Draft::new(found, penalty) {
        Ok(draft) => draft,
        Err(refusal) => return print_refused(refusal.number(), out),
    };
    let issued = match draft.issue(serial) {
        Ok(issued) => issued,
        Err(returned) => return print_refused(returned.refusal.number(), out),
    };
    let mut memory = [0; LINE_BYTES];
    match issued.print(&mut memory) {
        Ok(length) => out.write_all(&memory[..length])?,
        Err(returned) => return print_refused(returned.refusal.number(), out),
    }
    Ok(())
}

// Prints the number of a refusal.
fn print_refused<W: Write>(number: u8, out: &mut W) -> anyhow::Result<()> {
    Line::Audited(Audited::Refused { number }).print(out)?;
    Ok(())
}
