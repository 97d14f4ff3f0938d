//! Walks of jobs that were handed out.
ghost use Rattle.std.specs.Prelude.{◌≡◌};

use crate::messages::{Assignment, Opened, WalkReport};
use crate::rules::{RuledFetch, WalkRules};
use harvester::{Fetch, Walked, harvest_job};
use std::alloc::AllocGlobal;
use std::net::{Net, TcpListener, TcpStream};
use std::random::RandomSource;
use std::sync::Wait;
use std::time::Clock;

/// Walks a job that was handed out, from this second since the start of 1970 on. Nothing of the pages is kept.
pub fn walk_assignment<R, F, P>(
    rt: &R,
    fetch: &RuledFetch<F, P>,
    assignment: Assignment<P>,
    begun: u64,
) -> WalkReport<P>
where
    R: Wait + Clock + Net<Listener = TcpListener, Stream = TcpStream> + RandomSource + AllocGlobal,
    F: Fetch,
    P: WalkRules,
    ensures errand { result.errand ≡ assignment.errand }
    ensures job { result.job ≡ assignment.job }
{
    let (errand, job) = assignment.open();
    let Walked {
        result: walked,
        asked,
    } = harvest_job(rt, fetch.fetch(), &job, begun);
    WalkReport::new(Opened {
        errand,
        job,
        begun,
        result: walked,
        asked,
    })
}
