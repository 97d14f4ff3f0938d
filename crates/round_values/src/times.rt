//! Times by type, so that a second of the calendar isn't taken for a millisecond of the rounds.
ghost use Rattle.std.specs.Prelude.{◌≡◌, ◌+◌, ◌-◌, ◌^◌, min};

/// A second of the calendar: so many seconds since the start of 1970.
#[derive(Clone, Copy, Debug, PartialEq, Eq)]
pub struct Second(pub u64);

/// A moment of the rounds: so many milliseconds since they began, by a clock that doesn't go back.
#[derive(Clone, Copy, Debug, PartialEq, Eq)]
pub struct Millis(pub u64);

impl Second {
    /// The seconds that have passed since another second; none if the other is later.
    pub fn since(self, earlier: Second) -> u64
        ensures { result ≡ self.0 - earlier.0 }
    {
        self.0.saturating_sub(earlier.0)
    }
}

impl Millis {
    /// So many milliseconds later, as far as 64 bits count.
    pub fn after(self, milliseconds: u64) -> Millis
        ensures { result.0 ≡ min (self.0 + milliseconds) (2 ^ 64 - 1) }
    {
        Millis(self.0.saturating_add(milliseconds))
    }

    /// The milliseconds from another moment to this one; none if the other is later.
    pub fn since(self, earlier: Millis) -> u64
        ensures { result ≡ self.0 - earlier.0 }
    {
        self.0.saturating_sub(earlier.0)
    }
}
