//! Counts of replies that gates add to without a lock.
ghost use Rattle.std.specs.Prelude.{◌≡◌, IfOk, IsSome, None, is_some};
ghost use Rattle.service_status.specs.Counts.{no_replies};

use crate::counts::ReplyCounts;
use memento_time::NoMemory;
use std::alloc::Global;
use std::sync::Arc;
use std::sync::atomic::{AtomicU64, Ordering};

/// How many replies have which status.
#[derive(Drop)]
struct Counters {
    ok: AtomicU64,
    found: AtomicU64,
    bad: AtomicU64,
    absent: AtomicU64,
    method: AtomicU64,
    refused: AtomicU64,
    other: AtomicU64,
}

/// Counts a gate's replies by their status, or none.
#[derive(Drop)]
pub struct ReplyCounter {
    shared: Option<Arc<Counters>>,
}

impl ReplyCounter {
    /// A counter that counts nothing. Takes no memory.
    pub fn closed() -> ReplyCounter
        ensures { result.shared ≡ None }
    {
        ReplyCounter { shared: None }
    }

    /// A counter of which nothing is counted yet.
    pub fn open(alloc: Global) -> Result<ReplyCounter, NoMemory>
        ensures { IfOk result (λ it. IsSome it.shared) }
    {
        let counters = Counters {
            ok: AtomicU64::new(0),
            found: AtomicU64::new(0),
            bad: AtomicU64::new(0),
            absent: AtomicU64::new(0),
            method: AtomicU64::new(0),
            refused: AtomicU64::new(0),
            other: AtomicU64::new(0),
        };
        let shared = Arc::new(alloc, counters)?;
        Ok(ReplyCounter {
            shared: Some(shared),
        })
    }

    /// Another owner of the same counts.
    pub fn share(&self) -> Result<ReplyCounter, NoMemory>
        ensures { IfOk result (λ other. is_some other.shared ≡ is_some self.now.shared) }
    {
        let shared = match &self.shared {
            Some(shared) => Some(Arc::try_clone(shared)?),
            None => None,
        };
        Ok(ReplyCounter { shared })
    }

    /// Counts a reply with this status.
    pub fn add(&self, status: u16) {
        let Some(counters) = &self.shared else {
            return;
        };
        let counter = match status {
            200 => &counters.ok,
            302 => &counters.found,
            400 => &counters.bad,
            404 => &counters.absent,
            405 => &counters.method,
            503 => &counters.refused,
            _ => &counters.other,
        };
        counter.fetch_add(1, Ordering::SeqCst);
    }

    /// The counts; none if nothing is counted.
    pub fn counts(&self) -> ReplyCounts
        ensures closed { self.now.shared ≡ None → result ≡ no_replies }
    {
        let Some(counters) = &self.shared else {
            return ReplyCounts::NONE;
        };
        ReplyCounts {
            ok: counters.ok.load(Ordering::SeqCst),
            found: counters.found.load(Ordering::SeqCst),
            bad: counters.bad.load(Ordering::SeqCst),
            absent: counters.absent.load(Ordering::SeqCst),
            method: counters.method.load(Ordering::SeqCst),
            refused: counters.refused.load(Ordering::SeqCst),
            other: counters.other.load(Ordering::SeqCst),
        }
    }
}
