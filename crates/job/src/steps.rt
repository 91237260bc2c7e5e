// The steps of a job: it is begun, and its records are taken one after another.
ghost use Rattle.std.specs.Prelude.{◌≡◌, ◌<◌, ◌≤◌, Ok, Err, IfErr, IfOk, MatchResult, length};
ghost use Rattle.job.specs.Jobs.{Next, started, state_of};
ghost use Rattle.sequencing.specs.Memory.{memory};

use crate::answer::Answer;
use crate::fault::{FaultAt, JobFault};
use crate::held::Held;
use crate::job::{JOB_BYTES, Job};
use crate::record::Record;
use matching::{Ready, Window};
use penalty::Penalty;

impl<'a, B: Penalty + Copy> Job<'a, B> {
    /// The job of a file over a bottom; refused where the file is above 4,096 bytes.
    pub fn new(bottom: B, file: &'a [u8]) -> Result<Job<'a, B>, FaultAt>
        ensures { MatchResult result
            (λ job. (length file.now ≤ 4096) × (job.held.bottom ≡ bottom) × (state_of job ≡ started file.now))
            (λ fault. (4096 < length file.now) × (fault ≡ record { fault = JobFault.TooLong; offset = 0 })) }
    {
        if file.len() > JOB_BYTES {
            return Err(FaultAt {
                fault: JobFault::TooLong,
                offset: 0,
            });
        }
        Ok(Job {
            held: Held::new(bottom),
            bytes: file,
            offset: 0,
        })
    }

    /// Does what the next record asks for, over memory that the caller lends; nothing at the end of the file. A fault
    /// changes nothing.
    pub fn next(
        &mut self,
        windows: &mut [Window],
        ready: &mut [Ready],
        list: &mut [u8],
    ) -> Result<Option<Answer>, FaultAt>
        ensures bottom { self.new.held.bottom ≡ self.old.held.bottom }
        ensures next { Next (B.cost self.old.held.bottom) (state_of self.old) (state_of self.new)
            (memory windows.old ready.old list.old) (memory windows.new ready.new list.new) result }
    {
        let offset = self.offset;
        self.take_next(windows, ready, list)
            .map_err(|fault| FaultAt { fault, offset })
    }

    // The same, with the fault alone.
    fn take_next(
        &mut self,
        windows: &mut [Window],
        ready: &mut [Ready],
        list: &mut [u8],
    ) -> Result<Option<Answer>, JobFault>
        ensures bottom { self.new.held.bottom ≡ self.old.held.bottom }
        ensures answer { IfOk result (λ answer. Next (B.cost self.old.held.bottom) (state_of self.old) (state_of self.new)
            (memory windows.old ready.old list.old) (memory windows.new ready.new list.new) (Ok answer)) }
        ensures fault { IfErr result (λ fault. Next (B.cost self.old.held.bottom) (state_of self.old) (state_of self.new)
            (memory windows.old ready.old list.old) (memory windows.new ready.new list.new) (Err (record { fault = fault; offset = self.old.offset }))) }
    {
        let Some((record, rest)) = Record::split_first(self.bytes)? else {
            return Ok(None);
        };
        let answer = self.held.take(record, windows, ready, list)?;
        self.offset += (self.bytes.len() - rest.len()) as u16;
        self.bytes = rest;
        Ok(Some(answer))
    }
}
