// The cases in bytes: groups of rosters, each roster with the settings of the layers over its bottom, and its channels.
use cases::{Case, Cases};

// How many bytes a channel has: its number (1), its readings (1) and its weight (2).
const ENTRY_BYTES: usize = 4;

/// Which bottom a group is over.
#[derive(Clone, Copy)]
pub enum Bottom {
    Absolute,
    TwoSided,
    OwnTable,
}

impl From<u8> for Bottom {
    fn from(code: u8) -> Bottom {
        match code {
            0 => Bottom::Absolute,
            1 => Bottom::TwoSided,
            _ => Bottom::OwnTable,
        }
    }
}

/// Rosters over one bottom, under a name; for an own table its rows, one after the other, four bytes a number.
#[derive(Clone, Copy)]
pub struct Group<'a> {
    pub bottom: Bottom,
    pub name: &'a [u8],
    pub rows: &'a [u8],
    rosters: &'a [u8],
}

impl<'a> Case<'a> for Group<'a> {
    fn split_first(bytes: &'a [u8]) -> Option<(Group<'a>, &'a [u8])> {
        let ([bottom, name, r1, r0, n3, n2, n1, n0], rest) = bytes.split_first_chunk::<8>()?;
        let (name, rest) = rest.split_at_checked(usize::from(*name))?;
        let length = u16::from_be_bytes([*r1, *r0]);
        let (rows, rest) = rest.split_at_checked(usize::from(length))?;
        let length = u32::from_be_bytes([*n3, *n2, *n1, *n0]);
        let (rosters, rest) = rest.split_at_checked(length as usize)?;
        let group = Group {
            bottom: Bottom::from(*bottom),
            name,
            rows,
            rosters,
        };
        Some((group, rest))
    }
}

impl<'a> Group<'a> {
    /// The rosters of the group.
    pub fn rosters(&self) -> Cases<'a, Query<'a>> {
        Cases::new(self.rosters)
    }
}

/// A roster with the settings of the layers over its bottom.
#[derive(Clone, Copy)]
pub struct Query<'a> {
    pub tolerance: u32,
    pub limit: u32,
    entries: &'a [u8],
}

impl<'a> Case<'a> for Query<'a> {
    fn split_first(bytes: &'a [u8]) -> Option<(Query<'a>, &'a [u8])> {
        let ([t3, t2, t1, t0, e3, e2, e1, e0, entries], rest) = bytes.split_first_chunk::<9>()?;
        let (entries, rest) = rest.split_at_checked(usize::from(*entries) * ENTRY_BYTES)?;
        let query = Query {
            tolerance: u32::from_be_bytes([*t3, *t2, *t1, *t0]),
            limit: u32::from_be_bytes([*e3, *e2, *e1, *e0]),
            entries,
        };
        Some((query, rest))
    }
}

impl<'a> Query<'a> {
    /// The channels of the roster.
    pub fn entries(&self) -> Cases<'a, Entry> {
        Cases::new(self.entries)
    }
}

/// A channel with its readings and its weight.
#[derive(Clone, Copy)]
pub struct Entry {
    pub channel: u8,
    pub readings: u16,
    pub weight: u16,
}

impl<'a> Case<'a> for Entry {
    fn split_first(bytes: &'a [u8]) -> Option<(Entry, &'a [u8])> {
        let ([channel, readings, w1, w0], rest) = bytes.split_first_chunk::<ENTRY_BYTES>()?;
        let entry = Entry {
            channel: *channel,
            readings: u16::from(*readings),
            weight: u16::from_be_bytes([*w1, *w0]),
        };
        Some((entry, rest))
    }
}
