// What a job holds between its records, and what a record does.
ghost use Rattle.std.specs.Prelude.{◌≡◌};
ghost use Rattle.job.specs.Held.{held_of, nothing_held};
ghost use Rattle.job.specs.Taking.{Takes};
ghost use Rattle.sequencing.specs.Memory.{memory};

use crate::answer::Answer;
use crate::fault::JobFault;
use crate::record::Record;
use matching::{Ready, Window};
use penalty::{Layers, Penalty, Threshold};
use roster::Roster;

// The bottom, the layers with their settings, and the channels.
#[derive(Clone, Copy)]
pub(crate) struct Held<B> {
    pub(crate) bottom: B,
    pub(crate) layers: Layers,
    // Only its channels count: each question has a roster of its own over the pile.
    pub(crate) roster: Roster<()>,
}

impl<B: Penalty + Copy> Held<B> {
    // No channel, and the layers as they are until they are set.
    pub(crate) fn new(bottom: B) -> Held<B>
        ensures bottom { result.bottom ≡ bottom }
        ensures held { held_of result ≡ nothing_held }
    {
        Held {
            bottom,
            layers: Layers::new(),
            roster: Roster::new(()),
        }
    }

    // Does what a record asks for.
    pub(crate) fn take(
        &mut self,
        record: Record,
        windows: &mut [Window],
        ready: &mut [Ready],
        list: &mut [u8],
    ) -> Result<Answer, JobFault>
        ensures bottom { self.new.bottom ≡ self.old.bottom }
        ensures takes { Takes (B.cost self.old.bottom) (held_of self.old) (held_of self.new) «record»
            (memory windows.old ready.old list.old) (memory windows.new ready.new list.new) result }
    {
        match record {
            Record::Add { channel, readings } => self.roster.add(channel, readings)?,
            Record::Weight { channel, weight } => self.layers.weights.set(channel, weight)?,
            Record::Tolerance { tolerance } => {
                self.layers.band.tolerance = Threshold::try_from(tolerance)?;
            }
            Record::Limit { limit } => self.layers.stop.limit = Threshold::try_from(limit)?,
            Record::List { bound } => return Ok(self.list(bound, windows, ready, list)?),
            Record::Best => return Ok(self.best(windows, ready, list)?),
        }
        Ok(Answer::Done)
    }
}
