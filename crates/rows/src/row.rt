// The best list of a row.
ghost use Rattle.std.specs.Prelude.{◌≡◌, length};
ghost use Rattle.sequencing.specs.Answers.{IsBest};
ghost use Rattle.sequencing.specs.Memory.{memory};
ghost use Rattle.sequencing.specs.Refusals.{MayRefuse};
ghost use Rattle.rows.specs.Rows.{number, row_refused, table_refused};

use crate::refusal::Refusal;
use matching::{Ready, Window};
use penalty::Penalty;
use round::Readings;
use sequencing::Best;

/// The least bound that has a list of the row's channels, with that list and the block below; or none. It answers as best of a
/// roster with these channels. Refused, it changes nothing.
pub fn best<P: Penalty>(
    penalty: &P,
    row: &[u16],
    windows: &mut [Window],
    ready: &mut [Ready],
    list: &mut [u8],
) -> Result<Best, Refusal>
    ensures { MayRefuse (row_refused row.now (length windows.old) (length ready.old) (length list.old))
        (IsBest (P.cost penalty.now) row.now (memory windows.old ready.old list.old) (memory windows.new ready.new list.new))
        number (memory windows.new ready.new list.new ≡ memory windows.old ready.old list.old) result }
{
    let readings = table(row)?;
    Ok(sequencing::best(penalty, &readings, windows, ready, list)?)
}

// The table that a row gives.
pub(crate) fn table(row: &[u16]) -> Result<Readings, Refusal>
    ensures { MayRefuse (table_refused row.now) (λ t. t.by_channel ≡ row.now) number Unit result }
{
    match Readings::try_from(row) {
        Ok(readings) => Ok(readings),
        Err(round::Refusal::RowLength) => Err(Refusal::RowLength),
        Err(round::Refusal::ReadingsAboveLimit) => Err(Refusal::ReadingsOutOfRange),
        Err(round::Refusal::TotalAboveLimit) => Err(Refusal::TotalAboveLimit),
        // These are said of a list, and not of a table.
        Err(
            round::Refusal::NoChannel
            | round::Refusal::ListLength
            | round::Refusal::NotAChannel { .. }
            | round::Refusal::WrongCount { .. },
        ) => unreachable!(),
    }
}
