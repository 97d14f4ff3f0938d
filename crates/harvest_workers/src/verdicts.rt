//! What walks tell of their archives.
ghost use Rattle.std.specs.Prelude.{◌≡◌};
ghost use Rattle.harvest_workers.specs.Verdicts as spec;
ghost use Rattle.harvest_workers.specs.Verdicts.{came, fetch_verdict, is_failure, seconds_after, status_verdict, verdict};

use crate::errands::Errand;
use harvest_lattice::Harvest;
use harvest_schedule::Verdict;
use harvester::{FetchFault, WalkFault};

/// Whether an answer of this status says that the archive can't answer, whatever it is asked for.
fn is_failure(status: u16) -> bool
    ensures { result ≡ is_failure status }
{
    500 <= status || status == 408 || status == 429
}

/// What it tells of an archive that nothing was fetched. The body of a wish's original may be such that it breaks off,
/// so that it does tells nothing of others.
fn fetch_verdict(errand: Errand, fault: FetchFault) -> Verdict
    ensures { result ≡ fetch_verdict errand fault }
{
    match fault {
        FetchFault::Failed => Verdict::Failed,
        FetchFault::Broken => match errand {
            Errand::Round(_) => Verdict::Failed,
            Errand::Wish { archive: _ } => Verdict::There,
        },
        FetchFault::TooLong => Verdict::There,
        FetchFault::NoMemory => Verdict::Unknown,
    }
}

/// What an answer tells of another status than 200 and 404. Whoever reads may have picked a wish's original, so what
/// it is answered with tells nothing of others.
fn status_verdict(errand: Errand, status: u16) -> Verdict
    ensures { result ≡ status_verdict errand status }
{
    match errand {
        Errand::Round(_) if is_failure(status) => Verdict::Failed,
        Errand::Round(_) | Errand::Wish { archive: _ } => Verdict::There,
    }
}

/// What it tells that this came. A page that can't be read is an answer as well, so the archive is there.
fn came(errand: Errand, walked: &Result<Harvest, WalkFault>) -> Verdict
    ensures { result ≡ came errand walked.now }
{
    match walked {
        Ok(_) | Err(WalkFault::TooManyPages | WalkFault::TooManyMementos) => Verdict::Answered,
        Err(WalkFault::Fetch(fault)) => fetch_verdict(errand, *fault),
        Err(WalkFault::Status(status)) => status_verdict(errand, *status),
        Err(WalkFault::Encoded | WalkFault::Page(_)) => Verdict::There,
        Err(WalkFault::NoMemory) => Verdict::Unknown,
    }
}

/// The millisecond that is so many seconds after another, and a second at least.
fn seconds_after(now: u64, seconds: u64) -> u64
    ensures { result ≡ seconds_after now seconds }
{
    now.saturating_add(seconds.max(1).saturating_mul(1_000))
}

/// What the walk of an errand that ended at this millisecond tells of its archive: that the archive asked to be left
/// alone for so many seconds, or else whether its first page came, and whether it is there. 404 is a page.
pub fn verdict_of(
    errand: Errand,
    walked: &Result<Harvest, WalkFault>,
    asked: Option<u64>,
    now: u64,
) -> Verdict
    ensures { result ≡ verdict errand now asked walked.now }
{
    match asked {
        Some(seconds) => busy(errand, seconds_after(now, seconds)),
        None => came(errand, walked),
    }
}

/// The archive asked not to be asked before this millisecond, which counts as a failure in a round alone.
fn busy(errand: Errand, until: u64) -> Verdict
    ensures { result ≡ spec.busy errand until }
{
    match errand {
        Errand::Round(_) => Verdict::Busy { until },
        Errand::Wish { archive: _ } => Verdict::Later { until },
    }
}
