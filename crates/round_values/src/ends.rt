//! How walks and pulls ended, as the status counts them.
ghost use Rattle.std.specs.Prelude.{◌≡◌};
ghost use Rattle.round_values.specs.Ends as spec;

use crate::reasons::reason_of;
use harvest_lattice::Harvest;
use harvester::WalkFault;
use outgoing_requests::PullFault;
use published_index::TakenAs;
use replica_exchange::TakeFault;
use service_log::{PartFault, PeerFault, Reason};
use service_status::{PullEnd, WalkEnd};

/// How a walk ended that failed for this reason.
fn end_of(reason: Reason) -> WalkEnd
    ensures { result ≡ spec.end_of reason }
{
    match reason {
        Reason::NoAnswer => WalkEnd::NoAnswer,
        Reason::TooLong => WalkEnd::TooLong,
        Reason::Status => WalkEnd::Status,
        Reason::Encoded => WalkEnd::Encoded,
        Reason::NoPage => WalkEnd::NoPage,
        Reason::TooManyPages => WalkEnd::TooManyPages,
        Reason::TooManyMementos => WalkEnd::TooManyMementos,
        Reason::NoMemory => WalkEnd::NoMemory,
    }
}

/// How a walk ended, whose archive was busy or not.
pub fn walk_end(walked: &Result<Harvest, WalkFault>, is_busy: bool) -> WalkEnd
    ensures { result ≡ spec.walk_end walked.now is_busy }
{
    match walked {
        Ok(harvest) if harvest.is_part() => WalkEnd::Part,
        Ok(_) => WalkEnd::Whole,
        Err(_) if is_busy => WalkEnd::Busy,
        Err(fault) => end_of(reason_of(*fault)),
    }
}

/// How a pull ended that brought nothing for this fault.
fn fault_end(fault: PeerFault) -> PullEnd
    ensures { result ≡ spec.fault_end fault }
{
    match fault {
        PeerFault::Pull(PullFault::Failed) => PullEnd::NoAnswer,
        PeerFault::Pull(PullFault::Status(_)) => PullEnd::Status,
        PeerFault::Pull(PullFault::BadState | PullFault::TooLong) => PullEnd::NoDelta,
        PeerFault::Pull(PullFault::NoMemory) => PullEnd::NoMemory,
        PeerFault::Take(TakeFault::Gap { .. }) => PullEnd::Gap,
        PeerFault::Take(TakeFault::NoMemory) => PullEnd::NoMemory,
        PeerFault::Part(PartFault::Apart | PartFault::Still) => PullEnd::Gap,
        PeerFault::Part(PartFault::NoMemory) => PullEnd::NoMemory,
    }
}

/// How a pull ended whose delta was taken, unless there is a fault.
pub fn pull_end(taken: &Result<TakenAs, PeerFault>) -> PullEnd
    ensures { result ≡ spec.pull_end taken.now }
{
    match taken {
        Ok(TakenAs::News) => PullEnd::News,
        Ok(TakenAs::Known) => PullEnd::NoNews,
        Err(fault) => fault_end(*fault),
    }
}
