//! Why no sections are read.
ghost use Rattle.std.specs.Prelude.{◌≡◌, Some};
ghost use Rattle.snapshot_sections.specs.Faults.{words_of};
ghost use Rattle.snapshot_sections.specs.declared.fault.SectionFault.TheVariants.{NoMemory as OutOfMemory};

use std::alloc::{AllocError, AllocFailed};
use std::error::Error;
use std::fmt;

/// Why no sections are read.
#[derive(Clone, Copy, Debug, PartialEq, Eq)]
pub enum SectionFault {
    /// The bytes aren't the sections of a snapshot, or they end too early.
    NotSections,
    /// The reader failed.
    NotRead,
    /// The allocator refused a growth.
    NoMemory,
}

impl fmt::Display for SectionFault {
    ghost output = { λ fault. Some (words_of fault) };

    fn fmt<W: fmt::Write>(&self, f: &mut fmt::Formatter<W>) -> fmt::Result {
        match self {
            SectionFault::NotSections => f.write_str("not the sections of a snapshot"),
            SectionFault::NotRead => f.write_str("not read"),
            SectionFault::NoMemory => f.write_str("no memory"),
        }
    }
}

impl Error for SectionFault {}

impl From<AllocError> for SectionFault {
    ghost from_gives = { λ _ fault. fault ≡ OutOfMemory };

    fn from(_refused: AllocError) -> SectionFault {
        SectionFault::NoMemory
    }
}

impl<T: Drop> From<AllocFailed<T>> for SectionFault {
    ghost from_gives = { λ _ fault. fault ≡ OutOfMemory };

    fn from(_refused: AllocFailed<T>) -> SectionFault {
        SectionFault::NoMemory
    }
}
