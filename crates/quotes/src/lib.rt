// Quotes: what the office sends to an owner for a bridge, from a draft to its line.
#![tactic(auto)]

mod draft;
mod figures;
mod issued;
mod refusal;
#[cfg(test)]
mod tests;

pub use draft::Draft;
pub use figures::figure;
pub use issued::{Issued, LARGEST_SERIAL};
pub use refusal::{Refusal, Returned};
