// Matches many sets of windows to slots, case after case on standard input, and prints what each is answered.
#![tactic(auto)]

#[cfg(test)]
mod tests;

use cases::{Case, Cases};
use matching::{Crowd, Ready, Unplaced, Window, place};
use std::alloc::{AllocError, Global};
use std::fmt::Write;
use std::io::Read;
use test_support::is_crowded;

// How many ready places a case may be lent at most.
const MOST_READY: usize = 80;

// How many bytes a window has: its channel (1), its reading, its earliest and its latest (2 each).
const WINDOW_BYTES: usize = 7;

// What is to be matched: the number of ready places, and the bytes of the windows.
#[derive(Clone, Copy)]
struct Query<'a> {
    ready: u8,
    windows: &'a [u8],
}

impl<'a> Case<'a> for Query<'a> {
    fn split_first(bytes: &'a [u8]) -> Option<(Query<'a>, &'a [u8])> {
        let [ready, n1, n0, rest @ ..] = bytes else {
            return None;
        };
        let size = usize::from(u16::from_be_bytes([*n1, *n0])) * WINDOW_BYTES;
        let (windows, rest) = rest.split_at_checked(size)?;
        let query = Query {
            ready: *ready,
            windows,
        };
        Some((query, rest))
    }
}

// The window that the bytes give, with a slot that no round has.
fn window_of(&[channel, r1, r0, e1, e0, l1, l0]: &[u8; WINDOW_BYTES]) -> Window {
    Window {
        channel,
        reading: u16::from_be_bytes([r1, r0]),
        earliest: u16::from_be_bytes([e1, e0]),
        latest: u16::from_be_bytes([l1, l0]),
        slot: u16::MAX,
    }
}

// The windows that the bytes give.
fn windows_of(heap: Global, bytes: &[u8]) -> Result<Vec<Window>, AllocError> {
    let (records, _rest) = bytes.as_chunks::<WINDOW_BYTES>();
    records.iter().map(window_of).collect(heap)
}

// Matches windows with as many ready places as the case says, but at most MOST_READY.
fn matched(windows: &mut [Window], ready: u8) -> Result<(), Unplaced> {
    let mut memory = [Ready::default(); MOST_READY];
    place(windows, &mut memory[..usize::from(ready).min(MOST_READY)])
}

// The line of a case: the slots in the order of the windows, or what else is answered.
fn line_of(heap: Global, windows: &mut [Window], ready: u8) -> anyhow::Result<String> {
    let mut line = String::new(heap);
    match matched(windows, ready) {
        Ok(()) => {
            write!(line, "PLACED")?;
            for window in windows.iter() {
                write!(line, " {}", window.slot)?;
            }
        }
        Err(Unplaced::Crowded(crowd)) if is_crowded(windows, crowd) => write!(line, "CROWDED")?,
        Err(Unplaced::Crowded(crowd)) => {
            let Crowd {
                first,
                last,
                number,
            } = crowd;
            write!(line, "NOT CROWDED {first} {last} {number}")?;
        }
        Err(Unplaced::ReadyPlaces) => write!(line, "REFUSED READY")?,
        Err(Unplaced::Windows) => write!(line, "REFUSED WINDOWS")?,
    }
    Ok(line)
}

fn main(rt: HostRuntime) -> anyhow::Result<()> {
    let mut input = Vec::new(rt.alloc());
    rt.stdin().read_to_end(&mut input)?;
    for Query { ready, windows } in Cases::new(&input) {
        let mut windows = windows_of(rt.alloc(), windows)?;
        let line = line_of(rt.alloc(), windows.as_mut_slice(), ready)?;
        println!(rt; "{line}")?;
    }
    Ok(())
}
