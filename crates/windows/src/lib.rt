// The windows of the readings at a bound, from a penalty.
#![tactic(auto)]

mod allowed;
mod answer;
mod closed_form;
mod count_limits;
mod entry;
mod finder;
mod records;

pub use answer::{Moment, Unfilled};
pub use closed_form::steiner_yeomans;
pub use entry::fill;
