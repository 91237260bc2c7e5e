// List and best of what a job holds.
ghost use Rattle.std.specs.Prelude.{◌≡◌, ◌<◌, sum};
ghost use Rattle.job.specs.Held.{held_of, pile};
ghost use Rattle.job.specs.Taking.{Answers};
ghost use Rattle.roster.specs.Book.{lengths, lent_of, number, refused};
ghost use Rattle.roster.specs.Series.{Right};
ghost use Rattle.round.specs.Lists.{Complete, LargestCost};
ghost use Rattle.sequencing.specs.Memory.{memory};
ghost use Rattle.sequencing.specs.Refusals.{MayRefuse};

use crate::answer::Answer;
use crate::held::Held;
use crate::question::ask;
use crate::record::Record;
use matching::{Ready, Window};
use penalty::{Penalty, Pile};
use roster::{Call, Refusal, Sizes};
use sequencing::Listed;

impl<B: Penalty + Copy> Held<B> {
    // The list at a bound, with its largest cost; or why there is none.
    pub(crate) fn list(
        &self,
        bound: u64,
        windows: &mut [Window],
        ready: &mut [Ready],
        list: &mut [u8],
    ) -> Result<Answer, Refusal>
        ensures { MayRefuse (refused self.now.roster.readings.by_channel (Call.List bound (lengths (memory windows.old ready.old list.old))))
            (Answers (B.cost self.now.bottom) (held_of self.now) (Record.List bound)
            (memory windows.old ready.old list.old) (memory windows.new ready.new list.new))
            number (memory windows.new ready.new list.new ≡ memory windows.old ready.old list.old) result }
    {
        let lent = sizes(windows, ready, list);
        let question = Call::List { bound, lent };
        match self.ask(question, windows, ready, list)? {
            roster::Answer::Listed(Listed::Within) => {
                let total = self.roster.readings().total();
                let largest = self.largest(&list[..usize::from(total)]);
                Ok(Answer::Within {
                    bound,
                    largest,
                    total,
                })
            }
            roster::Answer::Listed(Listed::Over(block)) => Ok(Answer::Over { bound, block }),
            // The answer to a list is that of a list.
            _ => unreachable!(),
        }
    }

    // The least bound that has a list.
    pub(crate) fn best(
        &self,
        windows: &mut [Window],
        ready: &mut [Ready],
        list: &mut [u8],
    ) -> Result<Answer, Refusal>
        ensures { MayRefuse (refused self.now.roster.readings.by_channel (Call.Best (lengths (memory windows.old ready.old list.old))))
            (Answers (B.cost self.now.bottom) (held_of self.now) Record.Best
            (memory windows.old ready.old list.old) (memory windows.new ready.new list.new))
            number (memory windows.new ready.new list.new ≡ memory windows.old ready.old list.old) result }
    {
        let lent = sizes(windows, ready, list);
        match self.ask(Call::Best { lent }, windows, ready, list)? {
            roster::Answer::Best(best) => Ok(Answer::Best(best)),
            // And that to a best is that of a best.
            _ => unreachable!(),
        }
    }

    // The reply to a question on a new roster with these channels, over a new pile with these settings.
    fn ask(
        &self,
        question: Call,
        windows: &mut [Window],
        ready: &mut [Ready],
        list: &mut [u8],
    ) -> Result<roster::Answer, Refusal>
        requires { lengths (memory windows.old ready.old list.old) ≡ lent_of question }
        ensures { Right (pile (B.cost self.now.bottom) (held_of self.now)) self.now.roster.readings.by_channel question
            (memory windows.old ready.old list.old) (memory windows.new ready.new list.new) result }
    {
        let readings = self.roster.readings();
        ask(self.pile(), readings, question, windows, ready, list)
    }

    // The largest cost of a complete list.
    fn largest(&self, list: &[u8]) -> u64
        requires some { 0 < sum self.now.roster.readings.by_channel }
        requires complete { Complete self.now.roster.readings.by_channel list.now }
        ensures { LargestCost (pile (B.cost self.now.bottom) (held_of self.now)) self.now.roster.readings.by_channel list.now result }
    {
        // The list is complete, so that the audit refuses nothing.
        let audited = self.roster.readings().audit(&self.pile(), list);
        audited.unwrap().cost
    }

    // A new pile of the layers over the bottom.
    fn pile(&self) -> Pile<B>
        ensures { ⟦<Pile<B> as Penalty>⟧.cost result ≡ pile (B.cost self.now.bottom) (held_of self.now) }
    {
        self.layers.over(self.bottom)
    }
}

// How much memory is lent.
fn sizes(windows: &[Window], ready: &[Ready], list: &[u8]) -> Sizes
    ensures { result ≡ lengths (memory windows.now ready.now list.now) }
{
    Sizes {
        windows: windows.len(),
        ready: ready.len(),
        list: list.len(),
    }
}
