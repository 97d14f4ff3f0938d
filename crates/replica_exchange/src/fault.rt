//! Why bytes can't be read as a state.
ghost use Rattle.std.specs.Prelude.{◌≡◌, Some};
ghost use Rattle.replica_exchange.specs.declared.fault.StateFault.TheVariants.{NoMemory as OutOfMemory};
ghost use Rattle.replica_exchange.specs.Faults.{fault_of, words_of};

use memento_time::{CleanFault, NoMemory};
use std::alloc::{AllocError, AllocFailed};
use std::error::Error;
use std::fmt;

/// Why a text can't be read as a state.
#[derive(Clone, Copy, Debug, PartialEq, Eq)]
pub enum StateFault {
    /// It has more than 268,435,456 bytes.
    TooLong,
    /// The text isn't that of a state.
    NotState,
    /// The allocator refused a growth.
    NoMemory,
}

impl fmt::Display for StateFault {
    ghost output = { λ fault. Some (words_of fault) };

    fn fmt<W: fmt::Write>(&self, f: &mut fmt::Formatter<W>) -> fmt::Result {
        match self {
            StateFault::TooLong => f.write_str("longer than 268435456 bytes"),
            StateFault::NotState => f.write_str("not the text of a state"),
            StateFault::NoMemory => f.write_str("no memory"),
        }
    }
}

impl Error for StateFault {}

impl From<CleanFault> for StateFault {
    ghost from_gives = { λ clean fault. fault ≡ fault_of clean };

    fn from(clean: CleanFault) -> StateFault {
        match clean {
            CleanFault::NotClean => StateFault::NotState,
            CleanFault::NoMemory => StateFault::NoMemory,
        }
    }
}

impl From<NoMemory> for StateFault {
    ghost from_gives = { λ _ fault. fault ≡ OutOfMemory };

    fn from(_refused: NoMemory) -> StateFault {
        StateFault::NoMemory
    }
}

impl From<AllocError> for StateFault {
    ghost from_gives = { λ _ fault. fault ≡ OutOfMemory };

    fn from(_refused: AllocError) -> StateFault {
        StateFault::NoMemory
    }
}

impl<T: Drop> From<AllocFailed<T>> for StateFault {
    ghost from_gives = { λ _ fault. fault ≡ OutOfMemory };

    fn from(_refused: AllocFailed<T>) -> StateFault {
        StateFault::NoMemory
    }
}
