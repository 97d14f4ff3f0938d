//! Why a gate isn't served, and why a reply isn't given.
ghost use Rattle.std.specs.Prelude.{◌≡◌, ◌⊎◌, Some};
ghost use Rattle.gate_server.specs.Faults.{edge_words, form_words, respond_words};

use http_header::{HeaderMapError, HeaderNameError, HeaderValueError};
use memento_time::NoMemory;
use published_index::GateFault;
use std::alloc::AllocError;
use std::error::Error;
use std::{fmt, io};

/// Why a reply has no HTTP form.
#[derive(Clone, Copy, Debug, PartialEq, Eq)]
pub enum FormFault {
    /// `http` refuses a part of the reply.
    NoForm,
    /// The allocator refused a growth.
    NoMemory,
}

/// Why a service gives no response.
#[derive(Clone, Copy, Debug, PartialEq, Eq)]
pub enum RespondFault {
    /// The gate is closed.
    Closed,
    /// `http` refuses a part of the reply.
    NoForm,
    /// The allocator refused a growth.
    NoMemory,
}

/// Why a gate isn't served.
#[derive(Clone, Copy, Debug, PartialEq, Eq)]
pub enum EdgeFault {
    /// The address can't be bound.
    Bind,
    /// No further connection can be accepted.
    Accept,
    /// The allocator refused a growth.
    NoMemory,
}

impl fmt::Display for FormFault {
    ghost output = { λ fault. Some (form_words fault) };

    fn fmt<W: fmt::Write>(&self, f: &mut fmt::Formatter<W>) -> fmt::Result {
        match self {
            FormFault::NoForm => f.write_str("a reply that HTTP can't carry"),
            FormFault::NoMemory => f.write_str("no memory"),
        }
    }
}

impl fmt::Display for RespondFault {
    ghost output = { λ fault. Some (respond_words fault) };

    fn fmt<W: fmt::Write>(&self, f: &mut fmt::Formatter<W>) -> fmt::Result {
        match self {
            RespondFault::Closed => f.write_str("a closed gate"),
            RespondFault::NoForm => f.write_str("a reply that HTTP can't carry"),
            RespondFault::NoMemory => f.write_str("no memory"),
        }
    }
}

impl fmt::Display for EdgeFault {
    ghost output = { λ fault. Some (edge_words fault) };

    fn fmt<W: fmt::Write>(&self, f: &mut fmt::Formatter<W>) -> fmt::Result {
        match self {
            EdgeFault::Bind => f.write_str("an address that can't be bound"),
            EdgeFault::Accept => f.write_str("no further connection"),
            EdgeFault::NoMemory => f.write_str("no memory"),
        }
    }
}

impl Error for FormFault {}

impl Error for RespondFault {}

impl Error for EdgeFault {}

impl From<AllocError> for FormFault {
    fn from(_refused: AllocError) -> FormFault {
        FormFault::NoMemory
    }
}

impl From<HeaderNameError> for FormFault {
    fn from(error: HeaderNameError) -> FormFault {
        match error {
            HeaderNameError::OutOfMemory => FormFault::NoMemory,
            _ => FormFault::NoForm,
        }
    }
}

impl From<HeaderValueError> for FormFault {
    fn from(error: HeaderValueError) -> FormFault {
        match error {
            HeaderValueError::OutOfMemory => FormFault::NoMemory,
            _ => FormFault::NoForm,
        }
    }
}

impl From<HeaderMapError> for FormFault {
    fn from(error: HeaderMapError) -> FormFault {
        match error {
            HeaderMapError::OutOfMemory => FormFault::NoMemory,
            _ => FormFault::NoForm,
        }
    }
}

impl From<GateFault> for RespondFault {
    ghost use Rattle.std.specs.Prelude.{◌↔◌};
    ghost use Rattle.published_index.specs.declared.faults.GateFault.TheVariants.{Closed as ClosedGate};
    ghost use Rattle.gate_server.specs.declared.faults.RespondFault.TheVariants.{Closed};

    ghost from_gives = { λ fault given. given ≡ Closed ↔ fault ≡ ClosedGate };

    fn from(fault: GateFault) -> RespondFault {
        match fault {
            GateFault::Closed => RespondFault::Closed,
            GateFault::NoMemory => RespondFault::NoMemory,
        }
    }
}

impl From<FormFault> for RespondFault {
    ghost use Rattle.std.specs.Prelude.{◌≢◌};
    ghost use Rattle.gate_server.specs.declared.faults.RespondFault.TheVariants.{Closed};

    ghost from_gives = { λ _ fault. fault ≢ Closed };

    fn from(fault: FormFault) -> RespondFault {
        match fault {
            FormFault::NoForm => RespondFault::NoForm,
            FormFault::NoMemory => RespondFault::NoMemory,
        }
    }
}

impl From<AllocError> for EdgeFault {
    ghost use Rattle.gate_server.specs.declared.faults.EdgeFault.TheVariants.{NoMemory as OutOfMemory};

    ghost from_gives = { λ _ fault. fault ≡ OutOfMemory };

    fn from(_refused: AllocError) -> EdgeFault {
        EdgeFault::NoMemory
    }
}

impl From<NoMemory> for EdgeFault {
    ghost use Rattle.gate_server.specs.declared.faults.EdgeFault.TheVariants.{NoMemory as OutOfMemory};

    ghost from_gives = { λ _ fault. fault ≡ OutOfMemory };

    fn from(_refused: NoMemory) -> EdgeFault {
        EdgeFault::NoMemory
    }
}

impl EdgeFault {
    /// Why an address wasn't bound.
    pub(crate) fn of_binding(error: &io::Error) -> EdgeFault
        ensures { (result ≡ EdgeFault.Bind) ⊎ (result ≡ EdgeFault.NoMemory) }
    {
        match error.kind() {
            io::ErrorKind::OutOfMemory => EdgeFault::NoMemory,
            _ => EdgeFault::Bind,
        }
    }

    /// Why no connection was accepted.
    pub(crate) fn of_accepting(error: &io::Error) -> EdgeFault
        ensures { (result ≡ EdgeFault.Accept) ⊎ (result ≡ EdgeFault.NoMemory) }
    {
        match error.kind() {
            io::ErrorKind::OutOfMemory => EdgeFault::NoMemory,
            _ => EdgeFault::Accept,
        }
    }
}
