//! The clock, which gives harvests their revisions and tells incarnations apart.
ghost use Rattle.std.specs.Prelude.{◌≡◌, ◌-◌, ◌^◌, min};
ghost use Rattle.std.specs.Duration.{as_nanos};

use crate::times::Second;
use memento_time::passed_since_1970;
use std::time::{Clock, Duration};

/// The second in which harvests that begin now are made: 0 before 1970 or without a clock.
pub fn second_now(rt: &impl Clock) -> Second {
    Second(memento_time::second_now(rt))
}

/// The incarnation of a replica that starts now: the clock's nanoseconds since 1970, or 0 before 1970 or without a
/// clock.
pub fn incarnation_now(rt: &impl Clock) -> u64 {
    incarnation_after(passed_since_1970(rt))
}

/// The incarnation of a replica that starts this long after the start of 1970: the nanoseconds, as far as 64 bits can
/// count them, which is into the year 2554.
fn incarnation_after(passed: Duration) -> u64
    ensures { result ≡ min (as_nanos passed) (2 ^ 64 - 1) }
{
    u64::try_from(passed.as_nanos()).unwrap_or(u64::MAX)
}
