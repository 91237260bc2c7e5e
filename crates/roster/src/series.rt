// Every series of calls on a new roster.
ghost use Rattle.std.specs.Prelude.{◌≡◌, ◌↔◌, IsTrue, Ok, Err, length};
ghost use Rattle.sequencing.specs.Memory.{memory};
ghost use Rattle.roster.specs.Book.{lent_of, lengths, next};
ghost use Rattle.roster.specs.Series.{IsEnough, IsPlayed, Right};

use crate::call::{Answer, Call, Sizes};
use crate::refusal::Refusal;
use crate::roster::Roster;
use matching::{Ready, Window};
use penalty::Penalty;

impl<P: Penalty> Roster<P> {
    // Makes a call, with the memory that it is lent.
    fn call(
        &mut self,
        call: Call,
        windows: &mut [Window],
        ready: &mut [Ready],
        list: &mut [u8],
    ) -> Result<Answer, Refusal>
        requires { lengths (memory windows.old ready.old list.old) ≡ lent_of call }
        ensures right { Right (P.cost self.old.penalty) self.old.readings.by_channel call
            (memory windows.old ready.old list.old) (memory windows.new ready.new list.new) result }
        ensures entries { self.new.readings.by_channel ≡ next self.old.readings.by_channel call }
        ensures penalty { self.new.penalty ≡ self.old.penalty }
    {
        match call {
            Call::Add { channel, readings } => {
                self.add(channel, readings)?;
                Ok(Answer::Done)
            }
            Call::Change { channel, readings } => {
                self.change(channel, readings)?;
                Ok(Answer::Done)
            }
            Call::Remove { channel } => {
                self.remove(channel)?;
                Ok(Answer::Done)
            }
            Call::List { bound, .. } => Ok(Answer::Listed(self.list(bound, windows, ready, list)?)),
            Call::Best { .. } => Ok(Answer::Best(self.best(windows, ready, list)?)),
        }
    }
}

/// Makes a series of calls on a new roster over a penalty. Answered are the roster after it and a reply to each call; each call
/// is lent its part of the memory, right after the parts of the calls before it. Where there are fewer replies than calls, or
/// less memory than all parts together, no call is made, and the penalty comes back.
pub fn play<P: Penalty>(
    penalty: P,
    calls: &[Call],
    replies: &mut [Result<Answer, Refusal>],
    windows: &mut [Window],
    ready: &mut [Ready],
    list: &mut [u8],
) -> Result<Roster<P>, P>
    ensures { elim result [
      | Ok roster ↦ IsEnough calls.now (length replies.old) (lengths (memory windows.old ready.old list.old))
          × IsPlayed (P.cost penalty) calls.now replies.old replies.new
          (memory windows.old ready.old list.old) (memory windows.new ready.new list.new) roster.readings.by_channel
          × (roster.penalty ≡ penalty)
      | Err back ↦ (IsEnough calls.now (length replies.old) (lengths (memory windows.old ready.old list.old)) → ⊥)
          × (replies.new ≡ replies.old) × (memory windows.new ready.new list.new ≡ memory windows.old ready.old list.old)
          × (back ≡ penalty)
    ] }
{
    let room = Sizes {
        windows: windows.len(),
        ready: ready.len(),
        list: list.len(),
    };
    if !is_enough(calls, replies.len(), room) {
        return Err(penalty);
    }
    let mut roster = Roster::new(penalty);
    let mut start = Sizes::NONE;
    for (i, &call) in calls.iter().enumerate() {
        let end = start.with(call.lent());
        replies[i] = roster.call(
            call,
            &mut windows[start.windows..end.windows],
            &mut ready[start.ready..end.ready],
            &mut list[start.list..end.list],
        );
        start = end;
    }
    Ok(roster)
}

// Whether so many replies and so much memory are enough for a series.
fn is_enough(calls: &[Call], replies: usize, room: Sizes) -> bool
    ensures { IsTrue result ↔ IsEnough calls.now replies room }
{
    if replies < calls.len() {
        return false;
    }
    let mut left = room;
    for call in calls {
        let Some(rest) = left.without(call.lent()) else {
            return false;
        };
        left = rest;
    }
    true
}
