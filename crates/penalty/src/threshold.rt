// The tolerance of a band and the limit of a stop: numbers as large as a size of q can be.
ghost use Rattle.std.specs.Prelude.{◌≡◌, ℕ, ◌≤◌};

use crate::settings::SettingRefusal;
use std::marker::Model;

/// The largest size of q on the domain, 4,096 * 4,096, and so the largest tolerance or limit.
pub const LARGEST_SIZE: u32 = 16_777_216;

/// A tolerance or a limit: a number from 0 to 16,777,216.
#[derive(Clone, Copy, PartialEq, Eq, Debug)]
pub struct Threshold {
    value: u32,
}

// Clauses see the number.
impl Model for Threshold {
    ghost Value = { ℕ };

    ghost view = { λ t. t.value };

    ghost invariant = { λ t. t.value ≤ 16777216 };

    ghost inverse = { λ n. record { value = n } };
}

/// The tolerance or limit of a value, unless it is refused with 10.
impl TryFrom<u32> for Threshold {
    ghost use Rattle.penalty.specs.Settings.{IsThreshold};

    type Error = SettingRefusal;

    ghost try_from_gives = { IsThreshold };

    fn try_from(value: u32) -> Result<Threshold, SettingRefusal> {
        if value > LARGEST_SIZE {
            return Err(SettingRefusal::ThresholdAboveLimit);
        }
        Ok(Threshold { value })
    }
}

impl Threshold {
    /// The least one, 0.
    pub const LEAST: Threshold = Threshold { value: 0 };

    /// The largest one, 16,777,216.
    pub const LARGEST: Threshold = Threshold {
        value: LARGEST_SIZE,
    };

    /// The number itself.
    // No `From`: `u32::from(threshold)` would be no plainer than `threshold.value()`.
    pub fn value(self) -> u32
        ensures value { result ≡ self }
        ensures within { result ≤ 16777216 }
    {
        self.value
    }
}
