// The roster: its channels, the calls on it, and every series of calls.
#![tactic(auto)]

mod call;
mod lists;
mod moments;
mod refusal;
mod roster;
mod series;

pub use call::{Answer, Call, Sizes};
pub use refusal::Refusal;
pub use roster::Roster;
pub use series::play;
