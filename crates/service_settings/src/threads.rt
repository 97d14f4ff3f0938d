//! In which threads walks run.
ghost use Rattle.std.specs.Prelude.{◌≡◌, ◌≤◌, IfErr, IfOk, IfSome};
ghost use Rattle.service_settings.specs.Limits.{IsWithin};
ghost use Rattle.service_settings.specs.Threads.{count_of, most_threads, stacks_of};

use crate::fault::{Key, MAX_WALKS, SettingsFault};
use harvester::MAX_WORKERS;

/// How many bytes a small stack has: enough for a walk, and for the system to look up a name.
pub const SMALL_STACK: usize = 524_288;

/// How large the stacks of threads are.
#[derive(Clone, Copy, Debug, PartialEq, Eq)]
pub enum Stacks {
    /// As large as the system makes them.
    Whole,
    /// Small, so that there can be many.
    Small,
}

impl Stacks {
    /// The most threads with such stacks, and so the most walks of one archive at once.
    pub(crate) fn most(self) -> u64
        ensures { result ≡ most_threads self }
    {
        match self {
            Stacks::Whole => MAX_WORKERS as u64,
            Stacks::Small => MAX_WALKS,
        }
    }
}

/// The threads in which walks run.
#[derive(Clone, Copy, Debug, PartialEq, Eq)]
pub struct WalkThreads {
    /// How many there are: so many walks run at once.
    pub count: usize,
    pub stacks: Stacks,

    ghost some: { 1 ≤ count },
    ghost few: { count ≤ most_threads stacks },
}

impl WalkThreads {
    /// As many threads with small stacks as `walks` says; where it is missing, as many with whole stacks as `workers`
    /// says.
    pub(crate) fn new(workers: u64, walks: Option<u64>) -> WalkThreads
        requires workers { IsWithin Key.Workers workers }
        requires walks { IfSome walks (IsWithin Key.Walks) }
        ensures count { result.count ≡ count_of workers walks }
        ensures stacks { result.stacks ≡ stacks_of walks }
    {
        match walks {
            Some(walks) => WalkThreads {
                count: walks as usize,
                stacks: Stacks::Small,
            },
            None => WalkThreads {
                count: workers as usize,
                stacks: Stacks::Whole,
            },
        }
    }
}

/// The most walks of one archive at once, where this was read at the key `walks`. If that key holds what it may not, it
/// is to blame, and no archive that may have more walks with it.
pub(crate) fn most_at_once(walks: &Result<Option<u64>, SettingsFault>) -> u64
    ensures read { IfOk walks.now (λ walks. result ≡ most_threads (stacks_of walks)) }
    ensures blamed { IfErr walks.now (λ _. result ≡ most_threads Stacks.Small) }
{
    match walks {
        Ok(None) => Stacks::Whole.most(),
        Ok(Some(_)) | Err(_) => Stacks::Small.most(),
    }
}
