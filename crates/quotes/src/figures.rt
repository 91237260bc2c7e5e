// The figure of a least bound.
ghost use Rattle.std.specs.Prelude.{◌*◌, ◌^◌, ◌<◌, SomeIff};
ghost use Rattle.quotes.specs.Figure.{figure_of};

/// The figure of a least bound in a round of so many slots, in hundredths: a hundred times the least, divided by the slots,
/// rounded up, so that it is never below the exact quotient. Nothing where there is no slot, or where a hundred times the least
/// is no number of 64 bits.
pub fn figure(least: u64, slots: u16) -> Option<u64>
    ensures { SomeIff result ((0 < slots) × (100 * least < 2 ^ 64)) (figure_of least slots) }
{
    if slots == 0 {
        return None;
    }
    Some(least.checked_mul(100)?.div_ceil(u64::from(slots)))
}
