// The digits of a number.
ghost use Rattle.std.specs.Prelude.{◌≡◌, ◌+◌, ◌≤◌, ◌++◌, decimal, length};
ghost use Rattle.arrayvec.specs.ArrayVec.{array_vec_len};

use crate::text::Text;
use itoa::Buffer;

// Appends the decimal digits of a number, without leading zeros.
pub(crate) fn push_digits(text: &mut Text, n: u64)
    requires { array_vec_len text.old + length (decimal n) ≤ 96 }
    ensures bytes { text.new.items ≡ text.old.items ++ decimal n }
    ensures long { array_vec_len text.new ≡ array_vec_len text.old + length (decimal n) }
{
    let mut digits = Buffer::new();
    let digits = digits.format(n).as_bytes();
    text.try_extend_from_slice(digits).unwrap();
}
