// List and best on a roster.
ghost use Rattle.std.specs.Prelude.{◌≡◌};
ghost use Rattle.sequencing.specs.Answers.{IsBest, IsListed};
ghost use Rattle.sequencing.specs.Memory.{memory};
ghost use Rattle.sequencing.specs.Refusals.{MayRefuse};
ghost use Rattle.roster.specs.Book.{lengths, number, refused};

use crate::call::Call;
use crate::refusal::Refusal;
use crate::roster::Roster;
use matching::{Ready, Window};
use penalty::Penalty;
use sequencing::{Best, Listed};

impl<P: Penalty> Roster<P> {
    /// The list of the channels at a bound, over memory that the caller lends; or why no list is within it.
    pub fn list(
        &self,
        bound: u64,
        windows: &mut [Window],
        ready: &mut [Ready],
        list: &mut [u8],
    ) -> Result<Listed, Refusal>
        ensures { MayRefuse (refused self.now.readings.by_channel (Call.List bound (lengths (memory windows.old ready.old list.old))))
            (IsListed (P.cost self.now.penalty) self.now.readings.by_channel bound
            (memory windows.old ready.old list.old) (memory windows.new ready.new list.new))
            number (memory windows.new ready.new list.new ≡ memory windows.old ready.old list.old) result }
    {
        Ok(sequencing::list(&self.penalty, &self.readings, bound, windows, ready, list)?)
    }

    /// The least bound that has a list of the channels, with that list and the block below; or none.
    pub fn best(
        &self,
        windows: &mut [Window],
        ready: &mut [Ready],
        list: &mut [u8],
    ) -> Result<Best, Refusal>
        ensures { MayRefuse (refused self.now.readings.by_channel (Call.Best (lengths (memory windows.old ready.old list.old))))
            (IsBest (P.cost self.now.penalty) self.now.readings.by_channel
            (memory windows.old ready.old list.old) (memory windows.new ready.new list.new))
            number (memory windows.new ready.new list.new ≡ memory windows.old ready.old list.old) result }
    {
        Ok(sequencing::best(&self.penalty, &self.readings, windows, ready, list)?)
    }
}
