// What the tests and the programs of many cases share.
#![tactic(auto)]

mod big_endian;
mod centred;
mod counting;
mod memory;
mod table;
mod windows;

pub use big_endian::numbers;
pub use centred::{CENTRES, Centred};
pub use counting::Counting;
pub use memory::Memory;
pub use table::worked_rows;
pub use windows::{EMPTY, is_crowded};
