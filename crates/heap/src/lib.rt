// One binary heap over memory that the caller lends, for every kind of `Copy` element with a total and transitive order.
#![tactic(auto)]

mod lent;
mod order;
mod sift;

pub use lent::{Full, Heap};
pub use order::Ordered;
