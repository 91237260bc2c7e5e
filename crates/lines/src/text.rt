// The text of a line as it is put together: words, and numbers after them.
ghost use Rattle.std.specs.Prelude.{◌≡◌, ◌+◌, ◌^◌, ◌<◌, ◌≤◌, ◌++◌, length};
ghost use Rattle.arrayvec.specs.ArrayVec.{array_vec_len};
ghost use Rattle.lines.specs.Text.{field};

use crate::digits::push_digits;
use crate::line::LINE_BYTES;
use arrayvec::ArrayVec;

// The bytes of a line, as far as it is put together.
pub(crate) type Text = ArrayVec<u8, LINE_BYTES>;

// Appends a word.
pub(crate) fn push_word(text: &mut Text, word: &str)
    requires { array_vec_len text.old + length word.now ≤ 96 }
    ensures bytes { text.new.items ≡ text.old.items ++ word.now }
    ensures long { array_vec_len text.new ≡ array_vec_len text.old + length word.now }
{
    text.try_extend_from_slice(word.as_bytes()).unwrap();
}

// Appends a word and a number of so many digits at most.
#[tactic(auto, using(crate::proofs::Lengths::few_digits))]
pub(crate) fn push_field<const DIGITS: usize>(text: &mut Text, word: &str, n: u64)
    requires digits { 0 < DIGITS }
    requires small { n < 10 ^ DIGITS }
    requires room { array_vec_len text.old + (length word.now + DIGITS) ≤ 96 }
    ensures bytes { text.new.items ≡ text.old.items ++ field word.now n }
    ensures long { array_vec_len text.new ≤ array_vec_len text.old + (length word.now + DIGITS) }
{
    push_word(text, word);
    push_digits(text, n);
}
