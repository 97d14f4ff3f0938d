//! The clock.
use std::time::{Clock, Duration, SystemTime, UNIX_EPOCH};

/// The time that has passed since the start of 1970 by the clock; zero before 1970 or without a clock.
pub fn passed_since_1970(rt: &impl Clock) -> Duration {
    let Ok(now) = SystemTime::now(rt) else {
        return Duration::ZERO;
    };
    now.duration_since(UNIX_EPOCH).unwrap_or(Duration::ZERO)
}

/// The clock's second since the start of 1970; 0 before 1970 or without a clock.
pub fn second_now(rt: &impl Clock) -> u64 {
    passed_since_1970(rt).as_secs()
}
