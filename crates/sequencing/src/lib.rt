// The list of a round at a bound, and the least bound that has one.
#![tactic(auto)]

mod answer;
mod entry;
mod refusal;
mod search;
mod sequence;

pub use answer::{Best, Block, Listed, Outcome};
pub use entry::{best, list};
pub use refusal::Refusal;
