//! Events, and how a world answers them.
ghost use Rattle.std.specs.Prelude.{◌≡◌, Some};
ghost use Rattle.replica_events.specs.declared.event.Refused.TheVariants.{NoMemory as OutOfMemory};
ghost use Rattle.replica_events.specs.Faults.{refusal, stamp_refusal, take_refusal, words_of};

use harvest_lattice::Harvest;
use memento_time::{NoMemory, Octets};
use replica_exchange::{Cursor, StampFault, StateFault, TakeFault};
use std::alloc::{AllocError, AllocFailed};
use std::error::Error;
use std::fmt;
use timegate::{Reply, Request};

/// An event in a world. Replicas and messages are numbered from 1.
#[derive(Debug, Drop)]
pub enum Event {
    /// The replica with this number takes a harvest.
    Take(usize, Harvest),
    /// The replica sends a message with everything that it has taken.
    Send(usize),
    /// The replica sends a message with what its merges after the first so many changed.
    SendFrom(usize, u64),
    /// The replica gets the message with the second number, which may be its own.
    Deliver(usize, usize),
    /// The replica gets bytes from outside.
    Receive(usize, Octets),
    /// The replica forgets everything that it has taken, and begins a new incarnation.
    Restart(usize),
    /// The replica is asked for a reply.
    Ask(usize, Request),
}

/// The result of an accepted event.
#[derive(Debug, Drop)]
pub enum Said {
    Taken,
    /// The message has this number.
    Sent(usize),
    /// A delivered message, or received bytes, were merged.
    Joined,
    Restarted,
    Replied(Reply),
}

/// Why an event was refused. A refused event changes nothing.
#[derive(Clone, Copy, Debug, PartialEq, Eq)]
pub enum Refused {
    /// No replica has this number.
    NoReplica,
    /// No message has this number.
    NoMessage,
    /// The bytes aren't the text of a state in either format, or there are more than 268,435,456 of them.
    BadState,
    NoMemory,
    /// The message leaves out merges of its sender that aren't known yet. `held` is how far the sender's merges are
    /// known.
    Gap { held: Option<Cursor> },
    /// No 64-bit number is left for one more merge, or for one more incarnation.
    NumbersSpent,
}

/// The answer to an event.
pub type EventAnswer = Result<Said, Refused>;

impl fmt::Display for Refused {
    ghost output = { λ refused. Some (words_of refused) };

    fn fmt<W: fmt::Write>(&self, f: &mut fmt::Formatter<W>) -> fmt::Result {
        match self {
            Refused::NoReplica => f.write_str("no replica"),
            Refused::NoMessage => f.write_str("no message"),
            Refused::BadState => f.write_str("bad state"),
            Refused::NoMemory => f.write_str("no memory"),
            Refused::Gap { held: None } => f.write_str("gap none"),
            Refused::Gap { held: Some(cursor) } => {
                write!(f, "gap {} {}", cursor.incarnation, cursor.number)
            }
            Refused::NumbersSpent => f.write_str("numbers spent"),
        }
    }
}

impl Error for Refused {}

impl From<AllocError> for Refused {
    ghost from_gives = { λ _ refused. refused ≡ OutOfMemory };

    fn from(_refused: AllocError) -> Refused {
        Refused::NoMemory
    }
}

impl<T: Drop> From<AllocFailed<T>> for Refused {
    ghost from_gives = { λ _ refused. refused ≡ OutOfMemory };

    fn from(_refused: AllocFailed<T>) -> Refused {
        Refused::NoMemory
    }
}

impl From<NoMemory> for Refused {
    ghost from_gives = { λ _ refused. refused ≡ OutOfMemory };

    fn from(_refused: NoMemory) -> Refused {
        Refused::NoMemory
    }
}

impl From<StateFault> for Refused {
    ghost from_gives = { λ fault refused. refused ≡ refusal fault };

    fn from(fault: StateFault) -> Refused {
        match fault {
            StateFault::TooLong | StateFault::NotState => Refused::BadState,
            StateFault::NoMemory => Refused::NoMemory,
        }
    }
}

impl From<StampFault> for Refused {
    ghost from_gives = { λ fault refused. refused ≡ stamp_refusal fault };

    fn from(fault: StampFault) -> Refused {
        match fault {
            StampFault::NumbersSpent => Refused::NumbersSpent,
            StampFault::NoMemory => Refused::NoMemory,
        }
    }
}

impl From<TakeFault> for Refused {
    ghost from_gives = { λ fault refused. refused ≡ take_refusal fault };

    fn from(fault: TakeFault) -> Refused {
        match fault {
            TakeFault::Gap { held } => Refused::Gap { held },
            TakeFault::NoMemory => Refused::NoMemory,
        }
    }
}
