//! Clocks.
use std::time::{Clock, Duration, Instant};

/// Tells how many milliseconds have passed since asking began.
#[derive(Clone, Copy)]
pub(crate) struct Watch {
    /// `None` if the clock couldn't be read, and then no time passes.
    begun: Option<Instant>,
}

impl Watch {
    pub(crate) fn start(rt: &impl Clock) -> Watch {
        Watch {
            begun: Instant::now(rt).ok(),
        }
    }

    /// The milliseconds that have passed.
    pub(crate) fn now(self, rt: &impl Clock) -> u64 {
        let (Some(begun), Ok(now)) = (self.begun, Instant::now(rt)) else {
            return 0;
        };
        let passed: Duration = now.duration_since(begun);
        u64::try_from(passed.as_millis()).unwrap_or(u64::MAX)
    }
}
