// Each call by itself, in memory of its own.
use penalty::Penalty;
use roster::{Answer, Call, Refusal, Roster, Sizes};
use sequencing::{Listed, Outcome};
use std::alloc::{AllocError, Global};
use test_support::Memory;

// So much memory as a series or a call is lent.
pub fn memory(heap: Global, lent: Sizes) -> Result<Memory, AllocError> {
    Memory::new(heap, lent.windows, lent.ready, lent.list)
}

// Makes a call by the roster's own method for it, in the memory.
pub fn called<P: Penalty>(
    memory: &mut Memory,
    roster: &mut Roster<P>,
    call: Call,
) -> Result<Answer, Refusal> {
    let Memory {
        windows,
        ready,
        list,
    } = memory;
    match call {
        Call::Add { channel, readings } => roster.add(channel, readings).map(|()| Answer::Done),
        Call::Change { channel, readings } => {
            roster.change(channel, readings).map(|()| Answer::Done)
        }
        Call::Remove { channel } => roster.remove(channel).map(|()| Answer::Done),
        Call::List { bound, .. } => roster.list(bound, windows, ready, list).map(Answer::Listed),
        Call::Best { .. } => roster.best(windows, ready, list).map(Answer::Best),
    }
}

// Whether the first windows and list bytes of the memory are those that stand in another from some place on.
pub fn begins_as(memory: &Memory, all: &Memory, start: Sizes, total: usize) -> bool {
    let windows = all.windows.iter().skip(start.windows);
    let list = all.list.iter().skip(start.list);
    memory
        .windows
        .iter()
        .zip(windows)
        .take(total)
        .all(|(a, b)| a == b)
        && memory
            .list
            .iter()
            .zip(list)
            .take(total)
            .all(|(a, b)| a == b)
}

// Whether a list stands in the memory after a reply.
pub fn has_list(reply: Result<Answer, Refusal>) -> bool {
    match reply {
        Ok(Answer::Listed(Listed::Within)) => true,
        Ok(Answer::Best(best)) => matches!(best.outcome, Outcome::Least { .. }),
        _ => false,
    }
}
