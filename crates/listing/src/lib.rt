// The listing of a job: what its records are answered with, in lines of text.
#![tactic(auto)]

mod answers;
mod listing;
mod printing;
mod program;
mod puts;
mod rows;
mod state;
mod step;

pub use printing::print_job;
pub use program::{answer, run};
pub use state::Listing;
