// Steiner and Yeomans' formulas: the window of a reading under the absolute deviation, without a search.
ghost use Rattle.std.specs.Prelude.{◌≡◌, ℕ, ◌≤◌, List, IfSome, SomeIff, sum};
ghost use Rattle.penalty.specs.Absolute.{absolute};
ghost use Rattle.round.specs.Lists.{Sound, readings as d_of};
ghost use Rattle.windows.specs.Allowed.{NoneBlocked};
ghost use Rattle.windows.specs.Formulas.{earliest as earliest_of, latest as latest_of};
ghost use Rattle.windows.specs.Windows.{IsWindow};

/// The window of a reading of a channel with `readings` readings in a round of `slots` slots, under the absolute
/// deviation and where the bound blocks no moment: its earliest and its latest slot. Nothing where `reading` is not
/// from 1 to `readings`.
pub fn steiner_yeomans(slots: u16, readings: u16, reading: u16, bound: u64) -> Option<(u16, u16)>
    ensures formulas { SomeIff result ((1 ≤ reading) × (reading ≤ readings))
        (earliest_of slots readings reading bound, latest_of slots readings reading bound) }
    ensures window { IfSome result (λ w. (t : List ℕ) (c : ℕ) →
        Sound t → slots ≡ sum t → readings ≡ d_of t c → NoneBlocked absolute t bound →
        IsWindow absolute t bound c reading w) }
{
    if reading < 1 || reading > readings {
        return None;
    }
    // In 128 bits, so that no bound is too large.
    let (slots, readings) = (u128::from(slots), u128::from(readings));
    let (reading, bound) = (u128::from(reading), u128::from(bound));
    let earliest = (reading * slots)
        .saturating_sub(bound)
        .div_ceil(readings)
        .max(1);
    let latest = (((reading - 1) * slots + bound) / readings + 1).min(slots);
    Some((earliest as u16, latest as u16))
}
