//! How long to wait for the other side of a connection.
ghost use Rattle.std.specs.Prelude.{◌≡◌, ◌*◌, ◌-◌, ◌^◌, min};
ghost use Rattle.std.specs.Duration.{as_nanos};

use std::time::Duration;

/// How many seconds to wait by default.
pub const DEFAULT_PATIENCE: u64 = 60;

/// How many times as long as for an answer's head to wait for the whole answer.
const HEADS_EACH_BODY: u64 = 10;

/// How long a fetch or a pull waits for the other side.
#[derive(Clone, Copy, Debug, PartialEq, Eq)]
pub struct Patience {
    seconds: u64,
}

impl Patience {
    /// A patience of this many seconds for the connection and the head of the answer.
    pub fn of_seconds(seconds: u64) -> Patience
        ensures { result ≡ record { seconds = seconds } }
    {
        Patience { seconds }
    }

    /// How long the connection and the head of the answer may take together.
    pub fn for_head(self) -> Duration
        ensures { as_nanos result ≡ self.seconds * 10 ^ 9 }
    {
        Duration::from_secs(self.seconds)
    }

    /// How long the whole answer may take: ten times as long as the head, up to the most seconds that 64 bits can
    /// count.
    pub fn for_body(self) -> Duration
        ensures { as_nanos result ≡ min (self.seconds * 10) (2 ^ 64 - 1) * 10 ^ 9 }
    {
        Duration::from_secs(self.seconds.saturating_mul(HEADS_EACH_BODY))
    }
}

/// The default patience: a minute.
impl Default for Patience {
    fn default() -> Patience {
        Patience::of_seconds(DEFAULT_PATIENCE)
    }
}
