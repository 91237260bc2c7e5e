// Counting the channels of a list slot by slot.
ghost use Rattle.std.specs.Prelude.{◌≡◌, ◌+◌, ◌<◌, slice_index, slice_set};

use penalty::CHANNELS;

// One slot more, in which `channel` stands.
pub(crate) fn count_slot(counts: &mut [u16; CHANNELS], channel: u8)
    requires { (channel < 64) × (slice_index counts.old channel < 4096) }
    ensures { counts.new ≡ slice_set counts.old channel (slice_index counts.old channel + 1) }
{
    counts[usize::from(channel)] += 1;
}

// The slot at a place of the list: places are numbered from 0, slots from 1.
pub(crate) fn slot_at(place: usize) -> u16
    requires { place < 4096 }
    ensures { result ≡ place + 1 }
{
    (place + 1) as u16
}
