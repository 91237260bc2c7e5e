// Numbers in bytes, for the programs of many cases.
ghost use Rattle.std.specs.Prelude.{◌≡◌, ◌/◌, IfOk, length, vec_len};

use std::alloc::{AllocError, Global};

/// The numbers that bytes hold, four bytes each, the high byte first; up to three bytes that are left at the end are not read.
pub fn numbers(heap: Global, bytes: &[u8]) -> Result<Vec<u32>, AllocError>
    ensures { IfOk result (λ v. vec_len v ≡ length bytes.now / 4) }
{
    let (chunks, _rest) = bytes.as_chunks::<4>();
    chunks
        .iter()
        .map(|&chunk| u32::from_be_bytes(chunk))
        .collect(heap)
}
