//! What a fetch keeps to beyond its patience.
ghost use Rattle.std.specs.Prelude.{◌≡◌, ◌*◌, ◌<◌, ◌↔◌, IfOk, IfSome, IsTrue};
ghost use Rattle.std.specs.Duration.{as_nanos};
ghost use Rattle.outgoing_requests.specs.Limits.{IsEnd, pause_before};

use harvester::{FetchFault, WalkProgress};
use std::thread;
use std::time::{Clock, Duration, Instant};

/// What a fetch keeps to beyond its patience. It keeps to nothing where there is `None`.
#[derive(Clone, Copy, Debug, Default, PartialEq, Eq)]
pub struct FetchLimits {
    /// The most seconds that a whole walk may take. The page that is fetched then is given up, and further ones aren't
    /// asked for.
    pub walk: Option<u64>,
    /// The fewest bytes a second in which a body may come, on the average since its head. It is first looked at once a
    /// patience has passed since then.
    pub rate: Option<u64>,
    /// How many milliseconds to wait between two pages of a walk.
    pub every: Option<u64>,
}

impl FetchLimits {
    /// When a walk has to end, if it has to. `Failed` if that can't be told, as the clock couldn't be read.
    pub(crate) fn end_of(self, progress: WalkProgress) -> Result<Option<Instant>, FetchFault>
        ensures end { IfOk result (λ end. IfSome progress.begun (λ begun. IsEnd self.walk begun end)) }
    {
        let Some(seconds) = self.walk else {
            return Ok(None);
        };
        let Some(begun) = progress.begun else {
            return Err(FetchFault::Failed);
        };
        Ok(begun.checked_add(Duration::from_secs(seconds)))
    }

    /// How long to wait before a page.
    pub(crate) fn pause_before(self, tried: usize) -> Duration
        ensures { as_nanos result ≡ pause_before self.every tried }
    {
        if tried == 0 {
            return Duration::ZERO;
        }
        Duration::from_millis(self.every.unwrap_or(0))
    }
}

/// Whether a body comes too slowly, of which so many bytes came in so many seconds.
pub(crate) fn is_too_slow(came: u64, least: u64, seconds: u64) -> bool
    ensures { IsTrue result ↔ (came < least * seconds) }
{
    match least.checked_mul(seconds) {
        Some(wanted) => came < wanted,
        // More than 64 bits, which no count reaches.
        None => true,
    }
}

/// Waits for this long, or until the end if that comes first. `Failed` if the end is over then, or the clock can't be
/// read.
pub(crate) fn wait_within(
    clock: &impl Clock,
    pause: Duration,
    end: Option<Instant>,
) -> Result<(), FetchFault> {
    let Some(end) = end else {
        rest(clock, pause);
        return Ok(());
    };
    let now = Instant::now(clock).map_err(|_| FetchFault::Failed)?;
    let left = end.duration_since(now);
    if left <= pause {
        rest(clock, left);
        return Err(FetchFault::Failed);
    }
    rest(clock, pause);
    Ok(())
}

/// Sleeps for this long, and not at all if that is no time: even then the system would let others run first.
fn rest(clock: &impl Clock, pause: Duration) {
    if pause != Duration::ZERO {
        thread::sleep(clock, pause);
    }
}
