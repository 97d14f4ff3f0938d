//! Why a snapshot isn't read or written.
ghost use Rattle.std.specs.Prelude.{◌≡◌, ◌≢◌, Some};
ghost use Rattle.snapshots.specs.Faults.{of_sections, of_text, words_of, words_of_writing};
ghost use Rattle.snapshots.specs.declared.faults.ReadFault.TheVariants.{NoMemory as ReadNoMemory};
ghost use Rattle.snapshots.specs.declared.faults.WriteFault.TheVariants.{TooLong as EntryTooLong, NoMemory as WriteNoMemory};

use replica_exchange::StateFault;
use snapshot_sections::SectionFault;
use std::alloc::{AllocError, AllocFailed};
use std::error::Error;
use std::{fmt, io};

/// Why no snapshot is read.
#[derive(Clone, Copy, Debug, PartialEq, Eq)]
pub enum ReadFault {
    /// The bytes aren't a snapshot, or they were cut short.
    NotSnapshot,
    /// The file couldn't be opened or read.
    NotRead,
    /// The allocator refused a growth.
    NoMemory,
}

impl fmt::Display for ReadFault {
    ghost output = { λ fault. Some (words_of fault) };

    fn fmt<W: fmt::Write>(&self, f: &mut fmt::Formatter<W>) -> fmt::Result {
        match self {
            ReadFault::NotSnapshot => f.write_str("no snapshot"),
            ReadFault::NotRead => f.write_str("not read"),
            ReadFault::NoMemory => f.write_str("no memory"),
        }
    }
}

impl Error for ReadFault {}

impl From<SectionFault> for ReadFault {
    ghost from_gives = { λ sections fault. fault ≡ of_sections sections };

    fn from(sections: SectionFault) -> ReadFault {
        match sections {
            SectionFault::NotSections => ReadFault::NotSnapshot,
            SectionFault::NotRead => ReadFault::NotRead,
            SectionFault::NoMemory => ReadFault::NoMemory,
        }
    }
}

impl From<StateFault> for ReadFault {
    ghost from_gives = { λ text fault. fault ≡ of_text text };

    fn from(text: StateFault) -> ReadFault {
        match text {
            StateFault::TooLong | StateFault::NotState => ReadFault::NotSnapshot,
            StateFault::NoMemory => ReadFault::NoMemory,
        }
    }
}

impl<T: Drop> From<AllocFailed<T>> for ReadFault {
    ghost from_gives = { λ _ fault. fault ≡ ReadNoMemory };

    fn from(_refused: AllocFailed<T>) -> ReadFault {
        ReadFault::NoMemory
    }
}

/// Why no snapshot is written.
#[derive(Clone, Copy, Debug, PartialEq, Eq)]
pub enum WriteFault {
    /// One archive's entry of one original alone has a text of more than 268,435,400 bytes.
    TooLong,
    /// The file couldn't be created, written, flushed or renamed.
    NotWritten,
    /// The allocator refused a growth.
    NoMemory,
}

impl fmt::Display for WriteFault {
    ghost output = { λ fault. Some (words_of_writing fault) };

    fn fmt<W: fmt::Write>(&self, f: &mut fmt::Formatter<W>) -> fmt::Result {
        match self {
            WriteFault::TooLong => f.write_str("too long"),
            WriteFault::NotWritten => f.write_str("not written"),
            WriteFault::NoMemory => f.write_str("no memory"),
        }
    }
}

impl Error for WriteFault {}

impl From<io::Error> for WriteFault {
    ghost from_gives = { λ _ fault. fault ≢ EntryTooLong };

    fn from(error: io::Error) -> WriteFault {
        match error.kind() {
            io::ErrorKind::OutOfMemory => WriteFault::NoMemory,
            _ => WriteFault::NotWritten,
        }
    }
}

impl From<AllocError> for WriteFault {
    ghost from_gives = { λ _ fault. fault ≡ WriteNoMemory };

    fn from(_refused: AllocError) -> WriteFault {
        WriteFault::NoMemory
    }
}
