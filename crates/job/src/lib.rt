// Job files: the records that one holds, and what they do.
#![tactic(auto)]

mod answer;
mod asking;
mod fault;
mod held;
mod job;
mod question;
mod record;
mod steps;

pub use answer::Answer;
pub use fault::{FaultAt, JobFault, RecordFault};
pub use job::{JOB_BYTES, Job};
pub use record::Record;
