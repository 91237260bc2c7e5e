// Memory for the lists of tests and of the programs of many cases.
ghost use Rattle.std.specs.Prelude.{◌≡◌, IfOk, replicate, vec_items, vec_len};

use crate::windows::EMPTY;
use matching::{Ready, Window};
use std::alloc::{AllocError, Global};

/// Window places, ready places and list bytes.
#[derive(Drop)]
pub struct Memory {
    pub windows: Vec<Window>,
    pub ready: Vec<Ready>,
    pub list: Vec<u8>,
}

impl Memory {
    /// So many of each, in which nothing stands: the list bytes are those of no channel.
    pub fn new(
        heap: Global,
        windows: usize,
        ready: usize,
        list: usize,
    ) -> Result<Memory, AllocError>
        ensures sizes { IfOk result (λ m. (vec_len m.windows ≡ windows) × (vec_len m.ready ≡ ready) × (vec_len m.list ≡ list)) }
        ensures nothing { IfOk result (λ m. vec_items m.list ≡ replicate list 255) }
    {
        Ok(Memory {
            windows: vec![in heap; EMPTY; windows]?,
            ready: vec![in heap; Ready::default(); ready]?,
            list: vec![in heap; u8::MAX; list]?,
        })
    }
}
