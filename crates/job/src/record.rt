// The records of a job file.
ghost use Rattle.std.specs.Prelude.{◌≡◌, ℕ, List, [], ◌∷◌, MatchOption, MatchResult};
ghost use Rattle.job.specs.Records.{Begins, BeginsNumber, IsCutShort, IsNoRecord};

use crate::fault::RecordFault;

// The kinds, each the first byte of its records.
const ADD: u8 = 0x43;

const WEIGHT: u8 = 0x57;

const TOLERANCE: u8 = 0x54;

const LIMIT: u8 = 0x45;

const LIST: u8 = 0x4C;

const BEST: u8 = 0x42;

/// What a job file asks for, in one record.
#[derive(Clone, Copy, PartialEq, Eq, Debug)]
pub enum Record {
    /// A channel gets readings.
    Add { channel: u8, readings: u16 },
    /// A channel gets a weight.
    Weight { channel: u8, weight: u16 },
    /// The band gets a tolerance.
    Tolerance { tolerance: u32 },
    /// The stop gets a limit.
    Limit { limit: u32 },
    /// The list at a bound is asked for.
    List { bound: u64 },
    /// The least bound that has a list is asked for.
    Best,
}

impl Record {
    /// The record that bytes begin with, and the bytes after it; nothing where there is no byte. Refused where the kind is
    /// unknown, or where the body is cut short.
    pub fn split_first(bytes: &[u8]) -> Result<Option<(Record, &[u8])>, RecordFault>
        ensures { MatchResult result
            (λ first. MatchOption first (bytes.now ≡ []) (λ parts. Begins bytes.now parts.0 parts.1.now))
            (IsNoRecord bytes.now) }
    {
        let [kind, body @ ..] = bytes else {
            return Ok(None);
        };
        let (record, rest) = match *kind {
            ADD => {
                let (channel, readings, rest) = split_channel(body)?;
                (Record::Add { channel, readings }, rest)
            }
            WEIGHT => {
                let (channel, weight, rest) = split_channel(body)?;
                (Record::Weight { channel, weight }, rest)
            }
            TOLERANCE => {
                let (tolerance, rest) = split_u32(body)?;
                (Record::Tolerance { tolerance }, rest)
            }
            LIMIT => {
                let (limit, rest) = split_u32(body)?;
                (Record::Limit { limit }, rest)
            }
            LIST => {
                let (bound, rest) = split_u64(body)?;
                (Record::List { bound }, rest)
            }
            BEST => (Record::Best, body),
            _ => return Err(RecordFault::UnknownKind),
        };
        Ok(Some((record, rest)))
    }
}

// A channel and a number of two bytes that a body begins with, and the bytes after them; refused where the body is cut short.
fn split_channel(body: &[u8]) -> Result<(u8, u16, &[u8]), RecordFault>
    ensures { MatchResult result
        (λ parts. (xs : List ℕ) × (body.now ≡ parts.0 ∷ xs) × BeginsNumber 2 xs parts.1 parts.2.now)
        (IsCutShort 3 body.now) }
{
    let [c, n1, n0, rest @ ..] = body else {
        return Err(RecordFault::CutShort);
    };
    Ok((*c, u16::from_be_bytes([*n1, *n0]), rest))
}

// The same for a number of four bytes.
fn split_u32(body: &[u8]) -> Result<(u32, &[u8]), RecordFault>
    ensures { MatchResult result (λ parts. BeginsNumber 4 body.now parts.0 parts.1.now) (IsCutShort 4 body.now) }
{
    let [n3, n2, n1, n0, rest @ ..] = body else {
        return Err(RecordFault::CutShort);
    };
    Ok((u32::from_be_bytes([*n3, *n2, *n1, *n0]), rest))
}

// The same for a number of eight bytes.
fn split_u64(body: &[u8]) -> Result<(u64, &[u8]), RecordFault>
    ensures { MatchResult result (λ parts. BeginsNumber 8 body.now parts.0 parts.1.now) (IsCutShort 8 body.now) }
{
    let [n7, n6, n5, n4, n3, n2, n1, n0, rest @ ..] = body else {
        return Err(RecordFault::CutShort);
    };
    let number = u64::from_be_bytes([*n7, *n6, *n5, *n4, *n3, *n2, *n1, *n0]);
    Ok((number, rest))
}
