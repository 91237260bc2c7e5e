// The window of a reading, with the slot that it is given.

/// One reading of a channel: the slots that it may stand in, and the slot that it stands in.
#[derive(Clone, Copy, PartialEq, Eq, Debug, Default)]
pub struct Window {
    /// The channel that is read.
    pub channel: u8,
    /// The reading's number within its channel.
    pub reading: u16,
    /// The first slot that it may stand in.
    pub earliest: u16,
    /// The last slot that it may stand in.
    pub latest: u16,
    /// The slot that it is given. What stands here before is not looked at.
    // No `Option`: each reading has a slot where all have one, and else the field is free.
    pub slot: u16,
}
