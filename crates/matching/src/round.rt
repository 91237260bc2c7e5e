// A round while its slots are filled by Glover's rule: slot after slot, the ready reading that is
// due first.
ghost use Rattle.std.specs.Prelude.{◌≡◌, ℕ, ◌+◌, ◌<◌, ◌≤◌, length, OnOk, IfErr};
ghost use Rattle.matching.specs.Matchings.{IsCrowd, crowd_of};
ghost use Rattle.matching.specs.Queues.{Starts};
ghost use Rattle.matching.specs.States.{LastMovable};
ghost use Rattle.matching.specs.Windows.{Arranged, Arranged-prop, blank};

use crate::answer::Crowd;
use crate::ready::Ready;
use crate::slots::{clear_slots, count_inside, last_movable, set_slot};
use crate::window::Window;
use heap::Heap;
use limits::CHANNELS;

/// The windows of a round while its slots are filled, and which readings wait. Of each channel at
/// most one reading is ready, its next one: neither end of its window is after that of a later
/// reading of the channel, so none of these is due before it.
// The heap stands beside it: a round that holds the heap too did not prove (docs/DECISIONS.md).
#[derive(Drop)]
pub(crate) struct Round<'a> {
    // The windows, with the slots that are given so far.
    windows: &'a mut [Window],
    // For each channel number the place of its next reading, or `None` while that is ready. For a
    // channel without one it is a place at which no reading of it stands.
    waiting: [Option<u16>; CHANNELS],
    ghost arranged: { Arranged (blank windows.now) } by { Arranged-prop (blank windows.now) },
}

impl<'a> Round<'a> {
    ghost use Rattle.matching.specs.Rounds.{Admits, AdmitsBelow, ComesBy, IsFilled, IsQueued, Keeps, Lent, Takes};

    // A round in which no reading has a slot, and all wait.
    pub(crate) fn new(windows: &'a mut [Window]) -> Round<'a>
        requires { Arranged windows.old }
        ensures slots { result.windows.now ≡ blank windows.old }
        ensures starts { Starts (blank windows.old) result.waiting }
        ensures named { result.windows.ghost_name ≡ windows.entry.ghost_name }
    {
        clear_slots(windows);
        let waiting = first_places(windows);
        Round { windows, waiting }
    }

    // How many slots the round has: one for each window.
    pub(crate) fn slots(&self) -> u16
        ensures { result ≡ length self.now.windows.now }
    {
        self.windows.len() as u16
    }

    // Fills the slot after the first `filled` slots, which are filled already, or shows slots that
    // are crowded.
    pub(crate) fn fill_next(
        &mut self,
        ready: &mut Heap<'_, Ready>,
        filled: u16,
    ) -> Result<(), Crowd>
        requires few { filled < length self.old.windows.now }
        requires queued { IsQueued self.old ready.old }
        requires filled { IsFilled self.old ready.old filled }
        ensures filled { OnOk result (IsFilled self.new ready.new (filled + 1)) }
        ensures crowded { IfErr result (IsCrowd (blank self.old.windows.now)) }
        ensures kept { Keeps self.old ready.old self.new ready.new }
        ensures lent { Lent self.old ready.old self.new ready.new }
    {
        let slot = filled + 1;
        self.admit(ready, slot);
        let Some(reading) = self.take(ready) else {
            return Err(self.crowd_after(slot));
        };
        if reading.is_late(slot) {
            return Err(self.crowd_upto(reading.latest));
        }
        set_slot(self.windows, reading.place, slot);
        Ok(())
    }

    // Makes the next reading of every channel ready whose earliest has come.
    fn admit(&mut self, ready: &mut Heap<'_, Ready>, slot: u16)
        requires { IsQueued self.old ready.old }
        ensures admitted { AdmitsBelow self.old ready.old self.new ready.new slot 64 }
        ensures slots { self.new.windows.now ≡ self.old.windows.now }
        ensures kept { Keeps self.old ready.old self.new ready.new }
        ensures lent { Lent self.old ready.old self.new ready.new }
    {
        // By number, since each call works on the whole round.
        for channel in 0..CHANNELS as u8 {
            self.admit_next(ready, channel, slot);
        }
    }

    // Makes the next reading of a channel ready, where it waits and its earliest has come.
    // A byte and no type of its own for the channel: this and `coming` alone ask that it is below 64.
    fn admit_next(&mut self, ready: &mut Heap<'_, Ready>, channel: u8, slot: u16)
        requires queued { IsQueued self.old ready.old }
        requires channel { channel < 64 }
        ensures admitted { Admits self.old ready.old self.new ready.new slot channel }
        ensures slots { self.new.windows.now ≡ self.old.windows.now }
        ensures kept { Keeps self.old ready.old self.new ready.new }
        ensures lent { Lent self.old ready.old self.new ready.new }
    {
        if let Some(reading) = self.coming(channel, slot) {
            // There is room: no other reading of this channel is there.
            ready.push(reading).unwrap();
            self.waiting[usize::from(channel)] = None;
        }
    }

    // The next reading of a channel, if it waits and its earliest has come.
    fn coming(&self, channel: u8, slot: u16) -> Option<Ready>
        requires { channel < 64 }
        ensures { ComesBy self.now channel slot result }
    {
        let place = self.waiting[usize::from(channel)]?;
        let window = self.windows.get(usize::from(place))?;
        if window.channel != channel || window.earliest > slot {
            return None;
        }
        Some(Ready {
            latest: window.latest,
            place,
        })
    }

    // Takes out the ready reading that is due first, after which its channel has a next one.
    fn take(&mut self, ready: &mut Heap<'_, Ready>) -> Option<Ready>
        requires { IsQueued self.old ready.old }
        ensures taken { Takes self.old ready.old self.new ready.new result }
        ensures slots { self.new.windows.now ≡ self.old.windows.now }
        ensures kept { Keeps self.old ready.old self.new ready.new }
        ensures lent { Lent self.old ready.old self.new ready.new }
    {
        let reading = ready.pop()?;
        let channel = usize::from(self.windows[usize::from(reading.place)].channel);
        self.waiting[channel] = Some(reading.place + 1);
        Some(reading)
    }

    // The crowd where no reading is ready: the slots after `slot`.
    fn crowd_after(&self, slot: u16) -> Crowd
        requires { slot ≤ length self.now.windows.now }
        ensures { result ≡ crowd_of self.now.windows.now (slot + 1) (length self.now.windows.now) }
    {
        self.crowd(slot + 1, self.slots())
    }

    // The crowd where a reading is late: the slots up to its latest, from after the last one whose
    // reading could also stand after that.
    fn crowd_upto(&self, latest: u16) -> Crowd
        requires { latest ≤ length self.now.windows.now }
        ensures { (a : ℕ) × LastMovable self.now.windows.now latest a × (result ≡ crowd_of self.now.windows.now (a + 1) latest) }
    {
        self.crowd(last_movable(self.windows, latest) + 1, latest)
    }

    // The slots `first` to `last`, with the number of windows that lie wholly inside.
    fn crowd(&self, first: u16, last: u16) -> Crowd
        ensures { result ≡ crowd_of self.now.windows.now first last }
    {
        Crowd {
            first,
            last,
            number: count_inside(self.windows, first, last),
        }
    }
}

// The place of the first reading of each channel, and for a channel without readings a place at
// which none of it stands.
fn first_places(windows: &[Window]) -> [Option<u16>; CHANNELS]
    requires { Arranged (blank windows.now) }
    ensures { Starts (blank windows.now) result }
{
    // `Some` for a channel without readings too, since `None` would mean that its next reading is ready. The place after the last is
    // seen to have none before any window is looked at.
    let mut waiting = [Some(windows.len() as u16); CHANNELS];
    for (place, window) in windows.iter().enumerate().rev() {
        waiting[usize::from(window.channel)] = Some(place as u16);
    }
    waiting
}
