// A listing as far as it is given.
ghost use Rattle.std.specs.Prelude.{◌≡◌, ◌≤◌, length};

use crate::puts::ANSWER_LINES;
use job::Job;
use lines::Line;

/// What is left of the listing of a job.
#[derive(Drop)]
pub struct Listing<'a, B> {
    // What takes the next record; nothing where no more is taken.
    pub(crate) job: Option<Job<'a, B>>,
    // The lines of the last answer in front, how many they are, and how many of them are given.
    pub(crate) lines: [Line; ANSWER_LINES],
    pub(crate) count: usize,
    pub(crate) given: usize,
    // There is a place for each line of an answer.
    ghost long: { length lines ≡ 4098 },
    ghost within: { count ≤ 4098 },
}
