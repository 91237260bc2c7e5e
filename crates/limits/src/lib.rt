// The limits that hold of every round: how many channel numbers there are, and how many readings.
#![tactic(auto)]

/// How many channel numbers there are, 0 to 63.
pub const CHANNELS: usize = 64;

/// The most readings of a round, and so its most slots.
pub const LIMIT: u16 = 4_096;
