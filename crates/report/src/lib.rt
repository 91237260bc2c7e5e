// The audit as a whole: from the bytes of its input to the line that it prints.
#![tactic(auto)]

mod input;
mod line;
mod whole;

pub use lines::LINE_BYTES;
pub use whole::{report, report_absolute};
