// The settings of the layers, and why one is refused.
ghost use Rattle.std.specs.Prelude.{◌≡◌};
ghost use Rattle.penalty.specs.Settings.{number};

/// Why a weight, a tolerance or a limit is refused.
#[derive(Clone, Copy, PartialEq, Eq, Debug)]
pub enum SettingRefusal {
    /// The channel is above 63.
    ChannelAboveLimit = 1,
    /// The weight is above 1,000.
    WeightAboveLimit = 9,
    /// The tolerance or the limit is above 16,777,216.
    ThresholdAboveLimit = 10,
}

impl SettingRefusal {
    /// The number of the refusal.
    // No `From`: `u8::from(refusal)` would not say that it is the refusal's number.
    pub fn number(self) -> u8
        ensures { result ≡ number self }
    {
        self as u8
    }
}
