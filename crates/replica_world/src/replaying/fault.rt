//! Why a replay ends early.
ghost use Rattle.std.specs.Prelude.{◌≡◌, Some};
ghost use Rattle.replica_world.specs.declared.replaying.fault.ReplayFault.TheVariants.{NoMemory as OutOfMemory};
ghost use Rattle.replica_world.specs.Output.{fault_words};

use memento_time::NoMemory;
use std::alloc::AllocError;
use std::error::Error;
use std::fmt;

/// Why a replay ended before the end of its script.
#[derive(Clone, Copy, Debug, PartialEq, Eq)]
pub enum ReplayFault {
    /// The line with this number, counted from 1, isn't a command, or what must follow it is missing.
    BadLine { number: u64 },
    /// The reader failed, or gave bytes in 1,000,000,000 pieces and its end had not been seen.
    Read,
    /// The writer failed, or took no byte.
    Write,
    /// The allocator refused a growth.
    NoMemory,
}

impl fmt::Display for ReplayFault {
    ghost output = { λ fault. Some (fault_words fault) };

    fn fmt<W: fmt::Write>(&self, f: &mut fmt::Formatter<W>) -> fmt::Result {
        match self {
            ReplayFault::BadLine { number } => write!(f, "bad line {number}"),
            ReplayFault::Read | ReplayFault::Write => f.write_str("device fault"),
            ReplayFault::NoMemory => f.write_str("no memory"),
        }
    }
}

impl Error for ReplayFault {}

impl From<AllocError> for ReplayFault {
    ghost from_gives = { λ _ fault. fault ≡ OutOfMemory };

    fn from(_refused: AllocError) -> ReplayFault {
        ReplayFault::NoMemory
    }
}

impl From<NoMemory> for ReplayFault {
    ghost from_gives = { λ _ fault. fault ≡ OutOfMemory };

    fn from(_refused: NoMemory) -> ReplayFault {
        ReplayFault::NoMemory
    }
}
