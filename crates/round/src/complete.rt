// The check that a list is complete: every slot has a channel of the table, as often as the table says.
ghost use Rattle.std.specs.Prelude.{◌≡◌, ℕ, ◌<◌, ◌≢◌, length, Some, None, Ok, Err, sum, slice_index};
ghost use Rattle.round.specs.Lists.{Sound, Complete, Channel, readings, times};
ghost use Rattle.round.specs.Refusals.{Refused};

use crate::counting::{count_slot, slot_at};
use crate::readings::Readings;
use crate::refusal::Refusal;
use penalty::CHANNELS;

impl Readings {
    /// Refuses a list that is not complete.
    #[tactic(auto, using(crate::proofs::Faults::wrong_length, crate::proofs::Faults::wrong_count))]
    pub fn check(&self, list: &[u8]) -> Result<(), Refusal>
        ensures { elim result [
          | Ok _ ↦ Sound self.now.by_channel × Complete self.now.by_channel list.now
          | Err e ↦ Refused self.now.by_channel list.now e
        ] }
    {
        if self.total() == 0 {
            return Err(Refusal::NoChannel);
        }
        if list.len() != usize::from(self.total()) {
            return Err(Refusal::ListLength);
        }
        let counts = self.tally(list)?;
        match self.first_difference(&counts) {
            Some(channel) => Err(Refusal::WrongCount { channel }),
            None => Ok(()),
        }
    }

    // How often each channel stands in a list of the right length.
    #[tactic(auto, using(crate::proofs::Faults::not_a_channel))]
    fn tally(&self, list: &[u8]) -> Result<[u16; CHANNELS], Refusal>
        requires { (0 < sum self.now.by_channel) × (length list.now ≡ sum self.now.by_channel) }
        ensures { elim result [
          | Ok counts ↦ (length counts ≡ 64) × ((c : ℕ) → slice_index counts c ≡ times c list.now) × ((i : ℕ) → i < length list.now → Channel self.now.by_channel (slice_index list.now i))
          | Err e ↦ Refused self.now.by_channel list.now e
        ] }
    {
        let mut counts = [0; CHANNELS];
        for (i, &channel) in list.iter().enumerate() {
            if self.of(channel) == 0 {
                return Err(Refusal::NotAChannel { slot: slot_at(i) });
            }
            count_slot(&mut counts, channel);
        }
        Ok(counts)
    }

    // The smallest channel whose count is not the table's.
    fn first_difference(&self, counts: &[u16; CHANNELS]) -> Option<u8>
        ensures { elim result [
          | None ↦ ((c : ℕ) → slice_index counts.now c ≡ readings self.now.by_channel c)
          | Some c ↦ (slice_index counts.now c ≢ readings self.now.by_channel c) × ((b : ℕ) → b < c → slice_index counts.now b ≡ readings self.now.by_channel b)
        ] }
    {
        let place = counts
            .iter()
            .zip(&self.by_channel)
            .position(|(count, readings)| count != readings)?;
        Some(place as u8)
    }
}
