// Readings, scan lists, their audit and their dearest moments.
#![tactic(auto)]

mod complete;
mod costed_moment;
mod counting;
mod dearest;
mod readings;
mod refusal;
mod walk;

pub use costed_moment::CostedMoment;
pub use readings::{Readings, within_limit};
pub use refusal::Refusal;
pub use walk::audit;
