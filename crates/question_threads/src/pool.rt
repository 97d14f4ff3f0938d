//! Workers, which walk jobs in threads of their own.
ghost use Rattle.std.specs.Prelude.{◌≤◌};

use crate::terms::Terms;
use crossbeam_channel::{Receiver, RecvTimeoutError, Sender, bounded};
use harvest_workers::{Assignment, WalkReport, WalkRules};
use harvester::SocketRuntime;
use service_settings::{SMALL_STACK, Stacks, WalkThreads};
use std::alloc::AllocError;
use std::sync::Wait;
use std::thread::{self, Builder, JoinHandle, Threads};
use std::time::{Clock, Duration};

/// What a worker's thread is given.
#[derive(Drop)]
struct Worker<P: WalkRules> {
    terms: Terms<P>,
    assignments: Receiver<Assignment<P>>,
    reports: Sender<WalkReport<P>>,
}

/// The workers, as the thread that asks sees them. Where it ends, a walk that is out isn't waited for.
#[derive(Drop)]
pub(crate) struct Pool<P: WalkRules> {
    assignments: Sender<Assignment<P>>,
    reports: Receiver<WalkReport<P>>,
    /// The workers that could be started. Without one, the thread that asks walks.
    threads: Vec<JoinHandle<()>>,
}

/// Walks jobs, one at a time, until no more can come.
fn work<R, P>(rt: &R, worker: Worker<P>)
where
    R: SocketRuntime,
    P: WalkRules,
{
    let Worker {
        terms,
        assignments,
        reports,
    } = worker;
    for _ in rt.forever() {
        let Ok(assignment) = assignments.recv(rt) else {
            return;
        };
        if reports.send(rt, terms.walk(rt, assignment)).is_err() {
            return;
        }
    }
    unreachable!()
}

/// How a thread with such a stack is started.
fn with_stack(stacks: Stacks) -> Builder {
    match stacks {
        Stacks::Whole => Builder::new(),
        Stacks::Small => Builder::new().stack_size(SMALL_STACK),
    }
}

impl<P: WalkRules + Send + Sync + 'static> Pool<P> {
    /// Starts as many workers as the settings name, as far as threads and memory allow.
    pub(crate) fn start<R>(rt: &R, terms: &Terms<P>) -> Result<Pool<P>, AllocError>
    where
        R: SocketRuntime + Threads + Sync + Send + Clone + Drop + 'static,
    {
        let WalkThreads { count, stacks } = terms.sources().threads;
        let (assignments, work_in) = bounded(rt.alloc(), count)?;
        let (work_out, reports) = bounded(rt.alloc(), count)?;
        let mut threads = Vec::with_capacity(rt.alloc(), count)?;
        for _ in 0..count {
            let worker = Worker {
                terms: terms.try_clone()?,
                assignments: work_in.clone()?,
                reports: work_out.clone()?,
            };
            let Ok(own) = rt.clone() else {
                break;
            };
            let Ok(thread) = with_stack(stacks).spawn(rt, move || work(&own, worker)) else {
                break;
            };
            threads.push(thread)?;
        }
        Ok(Pool {
            assignments,
            reports,
            threads,
        })
    }
}

impl<P: WalkRules> Pool<P> {
    /// How many walks can run at once.
    pub(crate) fn hands(&self) -> usize
        ensures { 1 ≤ result }
    {
        self.threads.len().max(1)
    }

    /// Gives a job to the workers. It comes back if there are none, or if it can't be sent.
    pub(crate) fn give(
        &self,
        rt: &impl Wait,
        assignment: Assignment<P>,
    ) -> Result<(), Assignment<P>> {
        if self.threads.is_empty() {
            return Err(assignment);
        }
        self.assignments
            .send(rt, assignment)
            .map_err(|refused| refused.into_inner())
    }

    /// Waits for a report, for so many milliseconds.
    pub(crate) fn wait<R: Wait + Clock>(&self, rt: &R, milliseconds: u64) -> Option<WalkReport<P>> {
        let time = Duration::from_millis(milliseconds);
        match self.reports.recv_timeout(rt, time) {
            Ok(report) => Some(report),
            Err(RecvTimeoutError::Timeout) => None,
            Err(RecvTimeoutError::Disconnected) => {
                // No worker is left, so nothing comes before the time is over.
                let _ = thread::sleep(rt, time);
                None
            }
        }
    }

    /// A report that waits to be taken in, if there is one.
    pub(crate) fn waiting(&self, rt: &impl Wait) -> Option<WalkReport<P>> {
        self.reports.try_recv(rt).ok()
    }
}
