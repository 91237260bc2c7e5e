// Rows of readings: the best list of a row, and trials, which change one number of a row for a while.
#![tactic(auto)]

mod checks;
mod refusal;
mod row;
mod trial;

pub use refusal::Refusal;
pub use row::best;
pub use trial::{Trial, trial_best};
