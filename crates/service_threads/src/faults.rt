//! Why serving ends early.
use hyper_edge::EdgeFault;
use published_index::OpenFault;
use std::alloc::{AllocError, AllocFailed};
use std::io;

/// Why serving ended before its last round and connection, or why it never began.
#[derive(Clone, Copy, Debug, PartialEq, Eq)]
pub enum ServeFault {
    /// A gate can't be bound, opened, or given a thread.
    NoGate,
    /// Writing the output, or accepting a connection, failed.
    Device,
    /// The allocator refused a growth.
    NoMemory,
}

// A write that failed, for whatever reason.
impl From<io::Error> for ServeFault {
    fn from(_failed: io::Error) -> ServeFault {
        ServeFault::Device
    }
}

impl From<AllocError> for ServeFault {
    fn from(_refused: AllocError) -> ServeFault {
        ServeFault::NoMemory
    }
}

impl<T: Drop> From<AllocFailed<T>> for ServeFault {
    fn from(_refused: AllocFailed<T>) -> ServeFault {
        ServeFault::NoMemory
    }
}

impl From<EdgeFault> for ServeFault {
    fn from(fault: EdgeFault) -> ServeFault {
        match fault {
            EdgeFault::Bind => ServeFault::NoGate,
            EdgeFault::Accept => ServeFault::Device,
            EdgeFault::NoMemory => ServeFault::NoMemory,
        }
    }
}

impl From<OpenFault> for ServeFault {
    fn from(fault: OpenFault) -> ServeFault {
        match fault {
            OpenFault::NoMemory => ServeFault::NoMemory,
            OpenFault::NoPlace => ServeFault::NoGate,
        }
    }
}
