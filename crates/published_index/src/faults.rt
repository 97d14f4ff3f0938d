//! The faults of this crate.
ghost use Rattle.published_index.specs.Faults.{refused_words, words_of, words_of_opening};
ghost use Rattle.std.specs.Prelude.{Some};

use std::error::Error;
use std::fmt;

/// Why nothing was opened.
#[derive(Clone, Copy, Debug, PartialEq, Eq)]
pub enum OpenFault {
    /// The allocator refused a growth.
    NoMemory,
    /// One of the readers had no place. No cause is promised.
    NoPlace,
}

impl fmt::Display for OpenFault {
    ghost output = { λ fault. Some (words_of_opening fault) };

    fn fmt<W: fmt::Write>(&self, f: &mut fmt::Formatter<W>) -> fmt::Result {
        match self {
            OpenFault::NoMemory => f.write_str("no memory"),
            OpenFault::NoPlace => f.write_str("no place for a reader"),
        }
    }
}

impl Error for OpenFault {}

/// Why a gate gave no reply.
#[derive(Clone, Copy, Debug, PartialEq, Eq)]
pub enum GateFault {
    /// The allocator refused a growth.
    NoMemory,
    /// No published state can be entered, because the merger was closed.
    Closed,
}

impl fmt::Display for GateFault {
    ghost output = { λ fault. Some (words_of fault) };

    fn fmt<W: fmt::Write>(&self, f: &mut fmt::Formatter<W>) -> fmt::Result {
        match self {
            GateFault::NoMemory => f.write_str("no memory"),
            GateFault::Closed => f.write_str("closed"),
        }
    }
}

impl Error for GateFault {}

/// Nothing was published. No cause is promised; in practice the allocator refused a growth.
#[derive(Clone, Copy, Debug, PartialEq, Eq)]
pub struct PublishRefused;

impl fmt::Display for PublishRefused {
    ghost output = { λ _. Some refused_words };

    fn fmt<W: fmt::Write>(&self, f: &mut fmt::Formatter<W>) -> fmt::Result {
        f.write_str("nothing was published")
    }
}

impl Error for PublishRefused {}
