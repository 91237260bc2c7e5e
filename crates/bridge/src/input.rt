// What is read of a bridge: the serial number of its quote, a trial, and its channels with their readings.
use penalty::CHANNELS;

/// A bridge, and what is asked about it.
#[derive(Clone, Copy)]
pub struct Bridge {
    /// The serial number of the quote.
    pub serial: u32,
    /// The channel whose readings are tried.
    pub channel: u8,
    /// Its readings in the trial.
    pub readings: u16,
    /// The readings of each channel.
    pub row: [u16; CHANNELS],
}

impl Bridge {
    /// The bridge that the bytes give: the serial number (4 bytes), the channel and the readings of the trial (1 and 2), and then
    /// each channel with its readings (1 and 2). A channel that stands twice has its last readings; one above 63 is left out.
    pub fn parse(bytes: &[u8]) -> Option<Bridge> {
        let ([s3, s2, s1, s0, channel, n1, n0], rest) = bytes.split_first_chunk::<7>()?;
        let mut row = [0; CHANNELS];
        let (records, _rest) = rest.as_chunks::<3>();
        for [channel, n1, n0] in records {
            if let Some(place) = row.get_mut(usize::from(*channel)) {
                *place = u16::from_be_bytes([*n1, *n0]);
            }
        }
        Some(Bridge {
            serial: u32::from_be_bytes([*s3, *s2, *s1, *s0]),
            channel: *channel,
            readings: u16::from_be_bytes([*n1, *n0]),
            row,
        })
    }
}
