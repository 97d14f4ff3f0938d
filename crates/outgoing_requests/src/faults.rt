//! Why a peer's delta isn't pulled.
ghost use Rattle.std.specs.Prelude.{Some};
ghost use Rattle.outgoing_requests.specs.Faults.{pull_words};

use harvester::FetchFault;
use std::alloc::AllocFailed;
use std::error::Error;
use std::fmt;

/// Why a peer's delta isn't pulled.
#[derive(Clone, Copy, Debug, PartialEq, Eq)]
pub enum PullFault {
    /// No answer came.
    Failed,
    /// The peer answered with a status other than 200.
    Status(u16),
    /// The body isn't a delta's text, nor that of a part if one was asked for; from `pull_state` also `TooLong`.
    BadState,
    /// The body is longer than 268,435,456 bytes.
    TooLong,
    /// The allocator refused a growth.
    NoMemory,
}

impl fmt::Display for PullFault {
    ghost output = { λ fault. Some (pull_words fault) };

    fn fmt<W: fmt::Write>(&self, f: &mut fmt::Formatter<W>) -> fmt::Result {
        match self {
            PullFault::Failed => f.write_str("no answer"),
            PullFault::Status(status) => write!(f, "status {status}"),
            PullFault::BadState => f.write_str("not the text of a delta"),
            PullFault::TooLong => {
                f.write_str(
                    "a delta of over 268435456 bytes, which the key `parts` has sent in parts",
                )
            }
            PullFault::NoMemory => f.write_str("no memory"),
        }
    }
}

impl Error for PullFault {}

impl From<FetchFault> for PullFault {
    ghost use Rattle.std.specs.Prelude.{◌≢◌};
    ghost use Rattle.outgoing_requests.specs.declared.faults.PullFault.TheVariants.{Status};

    ghost from_gives = { λ _ fault. fault ≢ Status 200 };

    fn from(fault: FetchFault) -> PullFault {
        match fault {
            FetchFault::Failed | FetchFault::Broken => PullFault::Failed,
            FetchFault::TooLong => PullFault::TooLong,
            FetchFault::NoMemory => PullFault::NoMemory,
        }
    }
}

impl<T: Drop> From<AllocFailed<T>> for PullFault {
    fn from(_refused: AllocFailed<T>) -> PullFault {
        PullFault::NoMemory
    }
}
