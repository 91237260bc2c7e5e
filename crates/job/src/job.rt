// A job as far as it is read.
ghost use Rattle.std.specs.Prelude.{◌+◌, ◌≤◌, length};

use crate::held::Held;

/// The most bytes of a job file.
pub const JOB_BYTES: usize = 4_096;

/// What a job holds, and what is left of its file.
#[derive(Drop)]
pub struct Job<'a, B> {
    pub(crate) held: Held<B>,
    // The bytes that are not read yet, and the offset of the first of them.
    pub(crate) bytes: &'a [u8],
    pub(crate) offset: u16,
    // The file has at most 4,096 bytes.
    ghost within: { offset + length bytes.now ≤ 4096 },
}
