// A case: the penalty, the replies and the memory of the series, and its calls.
use cases::Case;
use roster::{Call, Sizes};
use std::alloc::{AllocError, Global};
use test_support::CENTRES;

// How many bytes a call has: its kind (1), channel (1), readings (2), bound (8), and how many window places (2), ready
// places (1) and list bytes (2) it is lent.
const CALL_BYTES: usize = 17;

/// How many channels have a weight of their own.
pub const WEIGHTS: usize = 2;

/// Which bottom a case is about.
#[derive(Clone, Copy)]
pub enum Bottom {
    Absolute,
    TwoSided,
    Centred,
}

impl From<u8> for Bottom {
    fn from(code: u8) -> Bottom {
        match code {
            0 => Bottom::Absolute,
            1 => Bottom::TwoSided,
            _ => Bottom::Centred,
        }
    }
}

/// The settings of the three layers.
#[derive(Clone, Copy)]
pub struct Settings {
    pub weights: [u16; WEIGHTS],
    pub tolerance: u32,
    pub limit: u32,
}

/// What is asked: a series of calls over a pile, with so many replies and so much memory.
#[derive(Clone, Copy)]
pub struct Query<'a> {
    pub bottom: Bottom,
    pub centres: [u8; CENTRES],
    pub settings: Settings,
    pub replies: u8,
    pub room: Sizes,
    calls: &'a [u8],
}

impl<'a> Case<'a> for Query<'a> {
    fn split_first(bytes: &'a [u8]) -> Option<(Query<'a>, &'a [u8])> {
        let ([bottom], rest) = bytes.split_first_chunk::<1>()?;
        let (centres, rest) = rest.split_first_chunk::<CENTRES>()?;
        let (settings, rest) = rest.split_first_chunk::<12>()?;
        let (room, rest) = rest.split_first_chunk::<6>()?;
        let ([replies, calls], rest) = rest.split_first_chunk::<2>()?;
        let (calls, rest) = rest.split_at_checked(usize::from(*calls) * CALL_BYTES)?;
        let query = Query {
            bottom: Bottom::from(*bottom),
            centres: *centres,
            settings: settings_of(settings),
            replies: *replies,
            room: lent_of(room),
            calls,
        };
        Some((query, rest))
    }
}

impl<'a> Query<'a> {
    // The calls of the series.
    pub fn calls(&self, heap: Global) -> Result<Vec<Call>, AllocError> {
        let (records, _rest) = self.calls.as_chunks::<CALL_BYTES>();
        records.iter().map(call_of).collect(heap)
    }
}

// The settings that the bytes give.
fn settings_of(&[u1, u0, v1, v0, t3, t2, t1, t0, e3, e2, e1, e0]: &[u8; 12]) -> Settings {
    Settings {
        weights: [u16::from_be_bytes([u1, u0]), u16::from_be_bytes([v1, v0])],
        tolerance: u32::from_be_bytes([t3, t2, t1, t0]),
        limit: u32::from_be_bytes([e3, e2, e1, e0]),
    }
}

// How much memory the bytes say.
fn lent_of(&[w1, w0, r1, r0, l1, l0]: &[u8; 6]) -> Sizes {
    Sizes {
        windows: usize::from(u16::from_be_bytes([w1, w0])),
        ready: usize::from(u16::from_be_bytes([r1, r0])),
        list: usize::from(u16::from_be_bytes([l1, l0])),
    }
}

// The call that the bytes give.
fn call_of(bytes: &[u8; CALL_BYTES]) -> Call {
    let &[
        kind,
        channel,
        n1,
        n0,
        b7,
        b6,
        b5,
        b4,
        b3,
        b2,
        b1,
        b0,
        w1,
        w0,
        ready,
        l1,
        l0,
    ] = bytes;
    let readings = u16::from_be_bytes([n1, n0]);
    let bound = u64::from_be_bytes([b7, b6, b5, b4, b3, b2, b1, b0]);
    let lent = lent_of(&[w1, w0, 0, ready, l1, l0]);
    match kind {
        0 => Call::Add { channel, readings },
        1 => Call::Change { channel, readings },
        2 => Call::Remove { channel },
        3 => Call::List { bound, lent },
        _ => Call::Best { lent },
    }
}
