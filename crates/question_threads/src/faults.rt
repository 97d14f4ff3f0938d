//! Why asking ends early.
use memento_time::NoMemory;
use std::alloc::{AllocError, AllocFailed};
use std::io;

/// Why asking ended before its last answer.
#[derive(Clone, Copy, Debug, PartialEq, Eq)]
pub enum AskFault {
    /// The list couldn't be read, or an answer couldn't be written.
    Device,
    /// The allocator refused a growth.
    NoMemory,
}

impl From<io::Error> for AskFault {
    fn from(error: io::Error) -> AskFault {
        match error.kind() {
            io::ErrorKind::OutOfMemory => AskFault::NoMemory,
            _ => AskFault::Device,
        }
    }
}

impl From<NoMemory> for AskFault {
    fn from(_refused: NoMemory) -> AskFault {
        AskFault::NoMemory
    }
}

impl From<AllocError> for AskFault {
    fn from(_refused: AllocError) -> AskFault {
        AskFault::NoMemory
    }
}

impl<T: Drop> From<AllocFailed<T>> for AskFault {
    fn from(_refused: AllocFailed<T>) -> AskFault {
        AskFault::NoMemory
    }
}
