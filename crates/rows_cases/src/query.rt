// A case: a row, a trial of it, how much memory there is, and the serial number and the memory of a quote.
use cases::Case;
use std::alloc::{AllocError, Global};

/// What is asked.
#[derive(Clone, Copy)]
pub struct Query<'a> {
    pub two_sided: bool,
    pub limit: u32,
    pub channel: u8,
    pub readings: u16,
    pub windows: u16,
    pub ready: u8,
    pub list: u16,
    pub serial: u32,
    pub line: u8,
    row: &'a [u8],
}

impl<'a> Case<'a> for Query<'a> {
    fn split_first(bytes: &'a [u8]) -> Option<(Query<'a>, &'a [u8])> {
        let ([bottom, e3, e2, e1, e0], rest) = bytes.split_first_chunk::<5>()?;
        let ([channel, n1, n0], rest) = rest.split_first_chunk::<3>()?;
        let ([w1, w0, ready, l1, l0], rest) = rest.split_first_chunk::<5>()?;
        let ([s3, s2, s1, s0, line, numbers], rest) = rest.split_first_chunk::<6>()?;
        let (row, rest) = rest.split_at_checked(2 * usize::from(*numbers))?;
        let query = Query {
            two_sided: *bottom != 0,
            limit: u32::from_be_bytes([*e3, *e2, *e1, *e0]),
            channel: *channel,
            readings: u16::from_be_bytes([*n1, *n0]),
            windows: u16::from_be_bytes([*w1, *w0]),
            ready: *ready,
            list: u16::from_be_bytes([*l1, *l0]),
            serial: u32::from_be_bytes([*s3, *s2, *s1, *s0]),
            line: *line,
            row,
        };
        Some((query, rest))
    }
}

impl<'a> Query<'a> {
    // The numbers of the row.
    pub fn row(&self, heap: Global) -> Result<Vec<u16>, AllocError> {
        let (pairs, _rest) = self.row.as_chunks::<2>();
        pairs
            .iter()
            .map(|&pair| u16::from_be_bytes(pair))
            .collect(heap)
    }
}
