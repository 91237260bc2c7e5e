// The input of the audit: a row of 64 numbers, two bytes each, then the bytes of the list.
ghost use Rattle.std.specs.Prelude.{◌≡◌};
ghost use Rattle.report.specs.Input.{row_of, list_of};

use arrayvec::ArrayVec;
use penalty::CHANNELS;

// How many bytes of the input are the row.
const ROW_BYTES: usize = 2 * CHANNELS;

// The numbers of the row that the input has.
pub(crate) fn row_of(input: &[u8]) -> ArrayVec<u16, CHANNELS>
    ensures { result.items ≡ row_of input.now }
{
    let (pairs, _) = input.as_chunks::<2>();
    let mut row = ArrayVec::new();
    // A `for`: `collect` into an `ArrayVec` answers a `Result`, and there is always room.
    for &pair in pairs.iter().take(CHANNELS) {
        row.push(u16::from_be_bytes(pair));
    }
    row
}

// The bytes after the row.
pub(crate) fn list_of(input: &[u8]) -> &[u8]
    ensures { result.now ≡ list_of input.now }
{
    input.get(ROW_BYTES..).unwrap_or_default()
}
