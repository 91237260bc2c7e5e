// The lines of a job's listing, one after another.
ghost use Rattle.std.specs.Prelude.{◌≡◌, ◌<◌, ◌≤◌, [], ◌∷◌, List, IfNone, IfSome, MatchBool, MatchOption};
ghost use Rattle.lines.specs.declared.line.Line.{Line as LineOf};
ghost use Rattle.listing.specs.Listing.{HasLeft, IsListing};
ghost use Rattle.listing.specs.Steps.{Refilled, rank};

use crate::answers::fault_line;
use crate::puts::ANSWER_LINES;
use crate::state::Listing;
use crate::step::{Step, put_next};
use job::Job;
use lines::Line;
use penalty::Penalty;

impl<'a, B: Penalty + Copy> Listing<'a, B> {
    /// The listing of a job file over a bottom.
    pub fn new(bottom: B, file: &'a [u8]) -> Listing<'a, B>
        ensures { (lines : List LineOf) → HasLeft B.cost result lines → IsListing (B.cost bottom) file.now lines }
    {
        let mut listing = Listing {
            job: None,
            lines: [Line::NoLeast; ANSWER_LINES],
            count: 0,
            given: 0,
        };
        match Job::new(bottom, file) {
            Ok(job) => listing.job = Some(job),
            Err(fault) => {
                listing.lines[0] = fault_line(fault);
                listing.count = 1;
            }
        }
        listing
    }

    /// The next line; nothing after the last, however often it is asked.
    pub fn next(&mut self) -> Option<Line>
        ensures line { MatchOption result
            (HasLeft B.cost self.old [])
            (λ line. (lines : List LineOf) → HasLeft B.cost self.new lines → HasLeft B.cost self.old (line ∷ lines)) }
        ensures fewer { IfSome result (λ _. rank self.new < rank self.old) }
        ensures ended { IfNone result (rank self.new ≡ 0) }
    {
        while self.given >= self.count {
            if !self.refill() {
                return None;
            }
        }
        let line = self.lines[self.given];
        self.given += 1;
        Some(line)
    }

    // Takes the next record, and puts the lines of its answer, or that of the fault; false where no more is taken.
    fn refill(&mut self) -> bool
        requires { self.old.count ≤ self.old.given }
        ensures { MatchBool result (Refilled B.cost self.old self.new) (HasLeft B.cost self.old [] × (rank self.new ≡ 0)) }
    {
        let Some(job) = &mut self.job else {
            return false;
        };
        let step = put_next(job, &mut self.lines);
        self.given = 0;
        match step {
            Step::Answered(count) => self.count = count,
            Step::Ended(count) => {
                self.count = count;
                self.job = None;
            }
        }
        true
    }
}
