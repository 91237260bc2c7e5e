// What is counted of rosters and their answers.
use roster::Refusal;
use sequencing::{Best, Listed, Outcome};
use std::fmt;

/// The counts of some rosters.
#[derive(Clone, Copy, Default)]
pub struct Tally {
    /// How many rosters there are.
    pub rosters: u64,
    /// How many complete lists they have.
    pub lists: u64,
    /// How often list was asked at a bound.
    pub asked: u64,
    /// How often it answered with a list.
    pub within: u64,
    /// How often it answered with a block.
    pub over: u64,
    /// How many leasts best answered.
    pub leasts: u64,
    /// The sum of these leasts.
    pub sum: u64,
    /// How many of them are 0.
    pub zero: u64,
    /// How often best answered that there is none.
    pub none: u64,
    /// How many answers are not those of the enumeration.
    pub disagreements: u64,
}

impl Tally {
    /// The counts of a roster with so many complete lists, before anything is asked.
    pub fn roster(lists: u32) -> Tally {
        Tally {
            rosters: 1,
            lists: u64::from(lists),
            ..Tally::default()
        }
    }

    /// The counts of one answer of list.
    pub fn listed(answer: Result<Listed, Refusal>, agrees: bool) -> Tally {
        Tally {
            asked: 1,
            within: u64::from(matches!(answer, Ok(Listed::Within))),
            over: u64::from(matches!(answer, Ok(Listed::Over(_)))),
            disagreements: u64::from(!agrees),
            ..Tally::default()
        }
    }

    /// The counts of one answer of best.
    pub fn best(answer: Result<Best, Refusal>, agrees: bool) -> Tally {
        let answered = Tally {
            disagreements: u64::from(!agrees),
            ..Tally::default()
        };
        match answer.map(|best| best.outcome) {
            Ok(Outcome::Least { least, .. }) => Tally {
                leasts: 1,
                sum: least,
                zero: u64::from(least == 0),
                ..answered
            },
            Ok(Outcome::NoLeast(_)) => Tally {
                none: 1,
                ..answered
            },
            Err(_) => answered,
        }
    }

    /// These counts and others together.
    pub fn and(self, other: Tally) -> Tally {
        Tally {
            rosters: self.rosters.saturating_add(other.rosters),
            lists: self.lists.saturating_add(other.lists),
            asked: self.asked.saturating_add(other.asked),
            within: self.within.saturating_add(other.within),
            over: self.over.saturating_add(other.over),
            leasts: self.leasts.saturating_add(other.leasts),
            sum: self.sum.saturating_add(other.sum),
            zero: self.zero.saturating_add(other.zero),
            none: self.none.saturating_add(other.none),
            disagreements: self.disagreements.saturating_add(other.disagreements),
        }
    }
}

impl fmt::Display for Tally {
    fn fmt<W: fmt::Write>(&self, f: &mut fmt::Formatter<W>) -> fmt::Result {
        let Tally {
            rosters,
            lists,
            asked,
            within,
            over,
            leasts,
            sum,
            zero,
            none,
            disagreements,
        } = *self;
        write!(f, "ROSTERS {rosters} LISTS {lists}")?;
        write!(f, " ASKED {asked} WITHIN {within} OVER {over}")?;
        write!(f, " LEASTS {leasts} SUM {sum} ZERO {zero} NONE {none}")?;
        write!(f, " DISAGREEMENTS {disagreements}")
    }
}
