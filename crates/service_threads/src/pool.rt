//! Workers, which walk jobs in threads of their own for as long as rounds are made.
ghost use Rattle.std.specs.Prelude.{◌≤◌};

use crate::terms::Terms;
use crossbeam_channel::{Receiver, RecvTimeoutError, Sender, bounded};
use harvest_workers::{Assignment, WalkReport, WalkRules};
use harvester::SocketRuntime;
use service_settings::{SMALL_STACK, Stacks};
use std::alloc::{AllocError, Global};
use std::sync::Wait;
use std::thread::{self, Builder, JoinHandle, Threads};
use std::time::{Clock, Duration};

/// What a worker's thread is given.
#[derive(Drop)]
struct Worker<P: WalkRules> {
    terms: Terms<P>,
    assignments: Receiver<Assignment<P>>,
    reports: Sender<WalkReport<P>>,
}

/// The workers, as the thread that makes the rounds sees them.
#[derive(Drop)]
pub struct Pool<P: WalkRules> {
    assignments: Sender<Assignment<P>>,
    reports: Receiver<WalkReport<P>>,
    /// The other ends, until the workers are started.
    ends: Option<Ends<P>>,
    /// The workers that could be started. Without one, the thread that makes the rounds walks.
    threads: Vec<JoinHandle<()>>,
}

/// The ends of the channels that workers have copies of.
#[derive(Drop)]
struct Ends<P: WalkRules> {
    assignments: Receiver<Assignment<P>>,
    reports: Sender<WalkReport<P>>,
}

/// What came while the thread of the rounds waited.
#[derive(Drop)]
pub enum News<P: WalkRules> {
    Report(WalkReport<P>),
    Nothing,
    /// No worker is left.
    Gone,
}

/// Walks jobs, one at a time, until no more can come.
fn work<R, P>(rt: &R, worker: Worker<P>)
where
    R: SocketRuntime,
    P: WalkRules,
{
    let Worker {
        terms,
        assignments,
        reports,
    } = worker;
    for _ in rt.forever() {
        let Ok(assignment) = assignments.recv(rt) else {
            return;
        };
        if reports.send(rt, terms.walk(rt, assignment)).is_err() {
            return;
        }
    }
    unreachable!()
}

impl<P: WalkRules + Send + Sync + 'static> Pool<P> {
    /// Starts as many workers as there is room for, as far as threads and memory allow. Does nothing if they were
    /// started before.
    pub(crate) fn start<R>(&mut self, rt: &R, terms: &Terms<P>)
    where
        R: SocketRuntime + Threads + Sync + Send + Clone + Drop + 'static,
    {
        let Some(ends) = self.ends.take() else {
            return;
        };
        let threads = terms.settings().threads;
        for _ in 0..threads.count {
            let Ok(worker) = next_worker(terms, &ends) else {
                return;
            };
            let Ok(own) = rt.clone() else {
                return;
            };
            let Ok(thread) = with_stack(threads.stacks).spawn(rt, move || work(&own, worker)) else {
                return;
            };
            let _ = self.threads.push(thread);
        }
    }
}

/// How a thread with such a stack is started.
fn with_stack(stacks: Stacks) -> Builder {
    match stacks {
        Stacks::Whole => Builder::new(),
        Stacks::Small => Builder::new().stack_size(SMALL_STACK),
    }
}

/// What one more worker is given.
fn next_worker<P: WalkRules>(terms: &Terms<P>, ends: &Ends<P>) -> Result<Worker<P>, AllocError> {
    Ok(Worker {
        terms: terms.try_clone()?,
        assignments: ends.assignments.clone()?,
        reports: ends.reports.clone()?,
    })
}

impl<P: WalkRules> Pool<P> {
    /// A pool with room for so many workers, of which none is started.
    pub(crate) fn new(alloc: Global, workers: usize) -> Result<Pool<P>, AllocError> {
        let (assignments, assignments_out) = bounded(alloc, workers)?;
        let (reports_in, reports) = bounded(alloc, workers)?;
        let threads = Vec::with_capacity(alloc, workers)?;
        let ends = Ends {
            assignments: assignments_out,
            reports: reports_in,
        };
        Ok(Pool {
            assignments,
            reports,
            ends: Some(ends),
            threads,
        })
    }

    /// How many walks can run at once.
    pub fn hands(&self) -> usize
        ensures { 1 ≤ result }
    {
        self.threads.len().max(1)
    }

    /// Gives a job to the workers. It comes back if there are none, or if it can't be sent.
    pub fn give(&self, rt: &impl Wait, assignment: Assignment<P>) -> Result<(), Assignment<P>> {
        if self.threads.is_empty() {
            return Err(assignment);
        }
        self.assignments
            .send(rt, assignment)
            .map_err(|refused| refused.into_inner())
    }

    /// Waits for a report, for so many milliseconds.
    pub fn news<R: Wait + Clock>(&self, rt: &R, milliseconds: u64) -> News<P> {
        let time = Duration::from_millis(milliseconds);
        if self.threads.is_empty() {
            let _ = thread::sleep(rt, time);
            return News::Nothing;
        }
        match self.reports.recv_timeout(rt, time) {
            Ok(report) => News::Report(report),
            Err(RecvTimeoutError::Timeout) => News::Nothing,
            Err(RecvTimeoutError::Disconnected) => News::Gone,
        }
    }

    /// A report that waits to be taken in, if there is one.
    pub fn waiting(&self, rt: &impl Wait) -> Option<WalkReport<P>> {
        self.reports.try_recv(rt).ok()
    }

    /// Ends the workers, once each has reported.
    pub(crate) fn close(self, rt: &(impl Threads + Wait)) {
        let Pool {
            assignments,
            reports,
            ends,
            threads,
        } = self;
        drop(assignments);
        drop(reports);
        drop(ends);
        for thread in threads {
            thread.join(rt);
        }
    }
}
