// The matching of windows to slots. It is given windows alone.
#![tactic(auto)]

mod answer;
mod arranged;
mod entry;
mod ready;
mod round;
mod slots;
mod window;

pub use answer::{Crowd, Unplaced};
pub use entry::place;
pub use limits::{CHANNELS, LIMIT};
pub use ready::Ready;
pub use window::Window;
