// The line that the audit prints.
ghost use Rattle.std.specs.Prelude.{◌≡◌};
ghost use Rattle.report.specs.Line.{line_of as line, refused_of};

use lines::{Audited, Line};
use round::{CostedMoment, Refusal};

// The line of an audit's answer.
pub(crate) fn line_of(answer: Result<CostedMoment, Refusal>) -> Line
    ensures { result ≡ line answer }
{
    Line::Audited(match answer {
        Ok(largest) => Audited::Largest {
            cost: largest.cost,
            slot: largest.slot,
            channel: largest.channel,
        },
        Err(refusal) => refused(refusal),
    })
}

// A refusal with its slot or its channel.
fn refused(refusal: Refusal) -> Audited
    ensures { result ≡ refused_of refusal }
{
    let number = refusal.number();
    match refusal {
        Refusal::NotAChannel { slot } => Audited::RefusedSlot { number, slot },
        Refusal::WrongCount { channel } => Audited::RefusedChannel { number, channel },
        _ => Audited::Refused { number },
    }
}
