// The owner's own table: the bottom over two rows of costs by step in the caller's memory, one for each side of the even share.
ghost use Rattle.std.specs.Prelude.{◌≡◌, ◌<◌, ◌≤◌, ◌^◌, Ok, Err, length, replicate};
ghost use Rattle.std.proofs.Common.{rules};
ghost use Rattle.std.proofs.Props.{props};
ghost use Rattle.penalty.specs.OwnRows.{Accepted, FirstFall, Refused};
ghost use Rattle.penalty.specs.OwnTable.{IsRow, owned};
ghost use Rattle.penalty.specs.OwnTableLaws.{owned_capped, owned_valley};

use crate::interface::{Penalty, TOP};
use crate::question::Question;
use crate::row_refusal::RowRefusal;
use crate::side::{Side, side_and_step};

// How many steps there are.
const STEPS: usize = 256;

// The built-in row.
static ZEROS: [u32; STEPS] = [0; STEPS];

/// Two rows of 256 costs by step, one for a count that is not behind its even share, one for a count that is. A step is an eighth of
/// a reading, and number 255 of a row is for that step and every greater departure. Each row starts at 0 and never falls; both are
/// borrowed, so that they stay as they are while the table exists.
#[derive(Clone, Copy)]
pub struct OwnTable<'a> {
    ahead: &'a [u32],
    behind: &'a [u32],
    // Both are such rows, so that asking for a cost checks neither.
    ghost ahead_row: { IsRow ahead.now } by { Prim.hlevel props },
    ghost behind_row: { IsRow behind.now } by { Prim.hlevel props },
}

impl<'a> OwnTable<'a> {
    /// `Ok` where both rows have 256 numbers, start at 0 and never fall; else the first fault: a length (21), a first number (22), a
    /// fall with its first step (23), and for each of these the row ahead first.
    pub fn check(ahead: &[u32], behind: &[u32]) -> Result<(), RowRefusal>
        ensures { elim result [
          | Ok _ ↦ Accepted ahead.now behind.now
          | Err e ↦ Refused ahead.now behind.now e
        ] }
    {
        if ahead.len() != STEPS {
            return Err(RowRefusal::Length { row: Side::Ahead });
        }
        if behind.len() != STEPS {
            return Err(RowRefusal::Length { row: Side::Behind });
        }
        if ahead[0] != 0 {
            return Err(RowRefusal::First { row: Side::Ahead });
        }
        if behind[0] != 0 {
            return Err(RowRefusal::First { row: Side::Behind });
        }
        if let Some(step) = first_fall(ahead) {
            let row = Side::Ahead;
            return Err(RowRefusal::Falls { row, step });
        }
        if let Some(step) = first_fall(behind) {
            let row = Side::Behind;
            return Err(RowRefusal::Falls { row, step });
        }
        Ok(())
    }

    /// The table of these two rows where `check` accepts them. Where it refuses either, both are replaced by rows of zeros, so that
    /// every question in the domain costs 0.
    pub fn new(ahead: &'a [u32], behind: &'a [u32]) -> OwnTable<'a>
        ensures given { Accepted ahead.now behind.now → (result.ahead.now ≡ ahead.now) × (result.behind.now ≡ behind.now) }
        ensures zeros { ¬ Accepted ahead.now behind.now → (result.ahead.now ≡ replicate 256 0) × (result.behind.now ≡ replicate 256 0) }
    {
        let Ok(()) = OwnTable::check(ahead, behind) else {
            return OwnTable::zeros();
        };
        OwnTable { ahead, behind }
    }

    // The table of two rows of zeros.
    fn zeros() -> OwnTable<'static>
        ensures ahead { result.ahead.now ≡ replicate 256 0 }
        ensures behind { result.behind.now ≡ replicate 256 0 }
    {
        OwnTable {
            ahead: &ZEROS,
            behind: &ZEROS,
        }
    }
}

impl Penalty for OwnTable<'_> {
    ghost cost = { λ p. owned p.ahead.now p.behind.now };

    ghost depth = { λ _. 0 };

    ghost capped = { λ p. owned_capped p.ahead_row p.behind_row };

    ghost outside = { Prim.search rules };

    ghost valley = { λ p. owned_valley p.ahead_row p.behind_row };

    fn cost(&self, question: Question) -> u64 {
        // The same guard in each bottom: a function that takes the rest as a closure would be no shorter.
        if !question.in_domain() {
            return TOP;
        }
        match side_and_step(question) {
            (Side::Ahead, step) => u64::from(self.ahead[usize::from(step)]),
            (Side::Behind, step) => u64::from(self.behind[usize::from(step)]),
        }
    }

    // No default in the trait: `0 ≡ depth self.now` does not prove there, since an impl may say another depth.
    fn depth(&self) -> u8 {
        0
    }
}

// The first step at which a row of 256 numbers falls, nothing where it never does.
fn first_fall(row: &[u32]) -> Option<u8>
    requires { length row.now ≡ 256 }
    ensures { FirstFall row.now result }
{
    let place = row.windows(2).position(|pair| pair[1] < pair[0])?;
    Some((place + 1) as u8)
}
