//! How the program fails: what it says on standard error, and its exit status.
ghost use Rattle.std.specs.Prelude.{◌≡◌, Some};
ghost use Rattle.std.specs.Process.{exit_status};
ghost use Rattle.aggregator.specs.declared.failure.Failure.TheVariants.{NoMemory};
ghost use Rattle.aggregator.specs.Ending.{IsUnread, entry_words, failure_of, failure_of_asking, failure_of_serving, failure_of_settings};
ghost use Rattle.aggregator.specs.Ending.{message_of, status_of};

use crate::telling::Behind;
use question_threads::AskFault;
use replica_world::ReplayFault;
use service_settings::{Holding, Key, SettingsFault, shown};
use service_threads::ServeFault;
use std::alloc::{AllocError, Global};
use std::process::ExitCode;
use std::{fmt, io};

/// The input, the settings or the words of the command line were wrong.
const BAD_INPUT: u8 = 2;

/// A device failed, a gate couldn't be had, or memory was refused.
const BAD_MACHINE: u8 = 3;

/// How `timemap` and `timegate` are called.
const INQUIRY_USAGE: &str =
    "usage: aggregator [timemap FILE ORIGINAL [--form link|json|cdxj] | timegate FILE ORIGINAL [YYYYMMDDhhmmss]]";

/// The most bytes of a file's name that are shown.
const MOST_SHOWN: usize = 4_096;

#[derive(Drop)]
pub(crate) enum Failure {
    /// The words of the command line ask for something that doesn't exist.
    Usage,
    /// The same of `timemap` and `timegate`.
    InquiryUsage,
    /// The word for an original names none.
    NoOriginal,
    /// The word for a datetime isn't one of fourteen digits.
    BadDatetime,
    /// The line with this number isn't a command.
    BadLine { number: u64 },
    /// The settings aren't TOML, or are too long.
    BadText,
    /// The settings lack this key, or it holds what it may not.
    BadKey(Key),
    /// The same, where more is told: what the key may hold, and lines about the keys that aren't looked at.
    BadValue { key: Key, unknown: Vec<String> },
    /// The entry of `originals` with this number, from 1 on, is none. More is told: lines about the keys that aren't
    /// looked at.
    BadOriginal { number: u64, unknown: Vec<String> },
    /// A gate can't be bound, opened, or given a thread.
    NoGate,
    /// Reading or writing failed.
    Device,
    /// The settings can't be read. This is the name of their file, as it is shown.
    Unread { file: String },
    /// The allocator refused a growth.
    NoMemory,
}

impl Failure {
    /// The exit status: 2 for wrong input, 3 for a device, a gate or memory.
    pub(crate) fn status(&self) -> ExitCode
        ensures { exit_status result ≡ status_of self.now }
    {
        match self {
            Failure::Usage
            | Failure::InquiryUsage
            | Failure::NoOriginal
            | Failure::BadDatetime
            | Failure::BadLine { .. }
            | Failure::BadText
            | Failure::BadKey(_)
            | Failure::BadValue { .. }
            | Failure::BadOriginal { .. } => ExitCode::from(BAD_INPUT),
            Failure::NoGate | Failure::Device | Failure::Unread { .. } | Failure::NoMemory => {
                ExitCode::from(BAD_MACHINE)
            }
        }
    }
}

impl fmt::Display for Failure {
    ghost output = { λ failure. Some (message_of failure) };

    fn fmt<W: fmt::Write>(&self, f: &mut fmt::Formatter<W>) -> fmt::Result {
        match self {
            Failure::Usage => f.write_str("usage: aggregator [replay | serve FILE | check FILE]"),
            Failure::InquiryUsage => f.write_str(INQUIRY_USAGE),
            Failure::NoOriginal => f.write_str("bad original"),
            Failure::BadDatetime => f.write_str("bad datetime"),
            Failure::BadLine { number } => write!(f, "bad line {number}"),
            Failure::BadText => f.write_str("bad settings: text"),
            Failure::BadKey(key) => write!(f, "bad settings: {}", key.name()),
            Failure::BadValue { key, unknown } => {
                let (holding, behind) = (Holding(*key), Behind(unknown.as_slice()));
                write!(
                    f,
                    "bad settings: {}\n{}: {holding}{behind}",
                    key.name(),
                    key.name()
                )
            }
            Failure::BadOriginal { number, unknown } => {
                let (entry, behind) = (BadEntry(*number), Behind(unknown.as_slice()));
                write!(f, "bad settings: originals\n{entry}{behind}")
            }
            Failure::NoGate => f.write_str("no gate"),
            Failure::Device => f.write_str("device fault"),
            Failure::Unread { file } => write!(f, "device fault\ncan't be read: {file}"),
            Failure::NoMemory => f.write_str("no memory"),
        }
    }
}

/// Which entry of `originals` is none.
#[derive(Clone, Copy)]
struct BadEntry(u64);

impl fmt::Display for BadEntry {
    ghost output = { λ entry. Some (entry_words entry.0) };

    fn fmt<W: fmt::Write>(&self, f: &mut fmt::Formatter<W>) -> fmt::Result {
        write!(f, "originals: entry {} is no original", self.0)
    }
}

impl From<ReplayFault> for Failure {
    ghost from_gives = { λ fault failure. failure ≡ failure_of fault };

    fn from(fault: ReplayFault) -> Failure {
        match fault {
            ReplayFault::BadLine { number } => Failure::BadLine { number },
            ReplayFault::Read | ReplayFault::Write => Failure::Device,
            ReplayFault::NoMemory => Failure::NoMemory,
        }
    }
}

impl From<SettingsFault> for Failure {
    ghost from_gives = { λ fault failure. failure ≡ failure_of_settings fault };

    fn from(fault: SettingsFault) -> Failure {
        match fault {
            SettingsFault::Text => Failure::BadText,
            SettingsFault::Key(key) => Failure::BadKey(key),
            SettingsFault::NoMemory => Failure::NoMemory,
        }
    }
}

impl From<ServeFault> for Failure {
    ghost from_gives = { λ fault failure. failure ≡ failure_of_serving fault };

    fn from(fault: ServeFault) -> Failure {
        match fault {
            ServeFault::NoGate => Failure::NoGate,
            ServeFault::Device => Failure::Device,
            ServeFault::NoMemory => Failure::NoMemory,
        }
    }
}

impl From<AskFault> for Failure {
    ghost from_gives = { λ fault failure. failure ≡ failure_of_asking fault };

    fn from(fault: AskFault) -> Failure {
        match fault {
            AskFault::Device => Failure::Device,
            AskFault::NoMemory => Failure::NoMemory,
        }
    }
}

impl From<AllocError> for Failure {
    ghost from_gives = { λ _ failure. failure ≡ NoMemory };

    fn from(_refused: AllocError) -> Failure {
        Failure::NoMemory
    }
}

impl Failure {
    /// Why the words of the command line couldn't be read: memory was refused, or a word isn't UTF-8.
    pub(crate) fn of_words(error: &io::Error) -> Failure {
        match error.kind() {
            io::ErrorKind::OutOfMemory => Failure::NoMemory,
            _ => Failure::Usage,
        }
    }

    /// Why settings couldn't be read from the file with this name. Where memory is refused for the name, it isn't told.
    pub(crate) fn of_file(alloc: Global, error: &io::Error, file: &str) -> Failure
        ensures { IsUnread file.now result }
    {
        match error.kind() {
            io::ErrorKind::OutOfMemory => Failure::NoMemory,
            _ => match shown(alloc, file, MOST_SHOWN) {
                Ok(file) => Failure::Unread { file },
                Err(_) => Failure::Device,
            },
        }
    }

    /// Why a device couldn't be read or written.
    pub(crate) fn of_device(error: &io::Error) -> Failure {
        match error.kind() {
            io::ErrorKind::OutOfMemory => Failure::NoMemory,
            _ => Failure::Device,
        }
    }
}
