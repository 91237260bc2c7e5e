// What the programs print: lines, each written in memory that the caller lends.
#![tactic(auto)]

mod audited;
mod block;
mod digits;
mod line;
mod printing;
mod quote;
mod reading;
mod refusal;
mod text;

pub use audited::Audited;
pub use block::Block;
pub use line::{LINE_BYTES, Line};
pub use quote::Quote;
pub use reading::Reading;
pub use refusal::ShortMemory;
