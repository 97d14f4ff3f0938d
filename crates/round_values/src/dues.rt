//! What is due when, by the time that has passed.
ghost use Rattle.std.specs.Prelude.{◌≡◌, ◌↔◌, IsTrue, None, Some, if◌then◌else◌};
ghost use Rattle.round_values.specs.Dues.{IsDue, in_millis};

use crate::times::Millis;
use service_settings::Settings;
use std::time::{Clock, Instant};

/// Tells the moment of the rounds, which began when it was started. Always the first moment without a clock.
#[derive(Clone, Copy, Debug)]
pub struct Stopwatch {
    start: Option<Instant>,
}

impl Stopwatch {
    /// Starts at this moment.
    pub fn start(rt: &impl Clock) -> Stopwatch {
        Stopwatch {
            start: Instant::now(rt).ok(),
        }
    }

    /// The present moment.
    pub fn now(self, rt: &impl Clock) -> Millis {
        let (Some(start), Ok(now)) = (self.start, Instant::now(rt)) else {
            return Millis(0);
        };
        let passed = now.saturating_duration_since(start);
        Millis(u64::try_from(passed.as_millis()).unwrap_or(u64::MAX))
    }
}

/// What is due each time that so much time has passed since it was last done; never without such a time.
#[derive(Clone, Copy, Debug)]
pub struct Due {
    /// In milliseconds.
    every: Option<u64>,
    last: Millis,
}

impl Due {
    /// What is due each time that so many seconds have passed, from this moment on.
    pub fn of_seconds(seconds: Option<u64>, now: Millis) -> Due
        ensures every { result.every ≡ in_millis seconds }
        ensures last { result.last ≡ now }
    {
        Due {
            every: seconds.map(|seconds| seconds.saturating_mul(1_000)),
            last: now,
        }
    }

    /// Whether it is due at this moment.
    pub fn is_due(self, now: Millis) -> bool
        ensures { IsTrue result ↔ IsDue self now.0 }
    {
        match self.every {
            Some(every) => self.last.after(every).0 <= now.0,
            None => false,
        }
    }

    /// It is done now.
    pub fn done(&mut self, now: Millis)
        ensures { self.new ≡ record self.old { last = now } }
    {
        self.last = now;
    }
}

/// Every so many seconds the log is told how far a round is.
const PROGRESS: u64 = 60;

/// What is due while rounds are made.
#[derive(Clone, Copy, Debug)]
pub struct Dues {
    pub publish: Due,
    pub pull: Due,
    pub progress: Due,
}

impl Dues {
    /// What is due by these settings, from this moment on. The log is told how far a round is only where that is
    /// wanted.
    pub fn new(settings: &Settings, tells: bool, now: Millis) -> Dues
        ensures publish { result.publish ≡ record { every = in_millis settings.now.timing.publish; last = now } }
        ensures pull { result.pull ≡ record { every = in_millis settings.now.timing.pull; last = now } }
        ensures progress { result.progress
            ≡ record { every = in_millis (if tells then Some 60 else None); last = now } }
    {
        let progress = if tells { Some(PROGRESS) } else { None };
        Dues {
            publish: Due::of_seconds(settings.timing.publish, now),
            pull: Due::of_seconds(settings.timing.pull, now),
            progress: Due::of_seconds(progress, now),
        }
    }
}
