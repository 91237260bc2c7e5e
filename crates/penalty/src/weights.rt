// The layer weights: each cost times the weight of its channel.
ghost use Rattle.std.specs.Prelude.{◌≡◌, ◌≤◌, All, length, replicate, Ok, Err, slice_index, slice_set};
ghost use Rattle.penalty.specs.Layers.{weighted};
ghost use Rattle.penalty.specs.Maps.{map_capped, map_outside, map_valley, weight_maps};

use crate::interface::{Penalty, TOP};
use crate::layer::Layer;
use crate::question::Question;
use crate::settings::SettingRefusal;
use limits::CHANNELS;

/// The largest weight.
pub const LARGEST_WEIGHT: u16 = 1_000;

/// The layer under which costs below TOP are multiplied by the weight of the channel, from 0 to 1,000, up to TOP - 1.
#[derive(Clone, Copy)]
pub struct Weights {
    by_channel: [u16; CHANNELS],
    // A weight for each channel number.
    ghost long: { length by_channel ≡ 64 },
    // No weight is above 1,000.
    ghost within: { All (λ w. w ≤ 1000) by_channel },
}

impl Weights {
    ghost use Rattle.penalty.specs.Settings.{WeightFault, Accepted, Refused};

    /// Every weight 1.
    pub fn new() -> Weights
        ensures { result.by_channel ≡ replicate 64 1 }
    {
        Weights {
            by_channel: [1; CHANNELS],
        }
    }

    /// Gives a channel its weight, unless it is refused with 1 or 9.
    pub fn set(&mut self, channel: u8, weight: u16) -> Result<(), SettingRefusal>
        ensures { elim result [
          | Ok _ ↦ Accepted (WeightFault channel weight) × (self.new.by_channel ≡ slice_set self.old.by_channel channel weight)
          | Err e ↦ Refused (WeightFault channel weight) e × (self.new.by_channel ≡ self.old.by_channel)
        ] }
    {
        if usize::from(channel) >= CHANNELS {
            return Err(SettingRefusal::ChannelAboveLimit);
        }
        if weight > LARGEST_WEIGHT {
            return Err(SettingRefusal::WeightAboveLimit);
        }
        self.by_channel[usize::from(channel)] = weight;
        Ok(())
    }

    // The weight of a channel, 0 for what is no channel number.
    // The look-up of `Readings` too: a table for both would have to be taken apart in each clause.
    pub(crate) fn of(&self, channel: u8) -> u16
        ensures weight { result ≡ slice_index self.now.by_channel channel }
        ensures within { result ≤ 1000 }
    {
        self.by_channel
            .get(usize::from(channel))
            .copied()
            .unwrap_or(0)
    }
}

impl Layer for Weights {
    ghost layered = { λ l. weighted l.by_channel };

    ghost capped = { λ l f. map_capped (weight_maps l.by_channel) };

    ghost outside = { λ l f. map_outside (weight_maps l.by_channel) };

    ghost valley = { λ l f _. map_valley (weight_maps l.by_channel) };

    // As for a band, TOP stays: a layer of any map of costs would only wrap the same lines once more.
    fn cost_over<P: Penalty>(&self, below: &P, question: Question) -> u64 {
        let cost = below.cost(question);
        if cost >= TOP {
            return TOP;
        }
        (u64::from(self.of(question.channel)) * cost).min(TOP - 1)
    }
}
