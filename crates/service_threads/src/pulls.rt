//! Pulls from peers in threads of their own.
ghost use Rattle.std.specs.Prelude.{◌↔◌, ◌<◌, IfOk, IsTrue};
ghost use Rattle.outgoing_requests.specs.Pulls.{IsPulled};

use crossbeam_channel::{Receiver, Sender, bounded};
use delta_parts::PartAsk;
use harvester::SocketRuntime;
use memento_time::Clean;
use outgoing_requests::{Patience, PullFault, Pulled, pull_part, pull_within};
use replica_exchange::Cursor;
use std::alloc::{AllocError, Global};
use std::sync::Wait;
use std::thread::{self, Threads};
use std::time::{Clock, Duration};

/// A peer that is to be pulled from, and from where on.
#[derive(Drop)]
pub struct PullRequest {
    /// The peer's number in the settings, counted from 1.
    pub peer: u64,
    pub base: Clean,
    pub cursor: Option<Cursor>,
    /// Which part is asked for, if parts are. A peer that answers with none is asked for the whole delta from the
    /// cursor.
    pub ask: Option<PartAsk>,
}

/// What a peer gave: a delta or a part of one that an answer brought, or a fault.
#[derive(Drop)]
pub struct PullAnswer {
    pub peer: u64,
    pub base: Clean,
    pub cursor: Option<Cursor>,
    pub answer: Result<Pulled, PullFault>,

    ghost brought: { ∥ IfOk answer IsPulled ∥₁ },
}

/// Pulls the whole delta from a cursor.
fn pull_whole<R: SocketRuntime>(
    rt: &R,
    patience: Patience,
    base: &Clean,
    cursor: Option<Cursor>,
) -> Result<Pulled, PullFault>
    ensures { IfOk result IsPulled }
{
    match pull_within(rt, patience, base, cursor) {
        Ok(delta) => Ok(Pulled::Whole(delta)),
        Err(fault) => Err(fault),
    }
}

/// Pulls a part, or the whole delta from a cursor where the peer answers with no parts.
fn pull_in_part<R: SocketRuntime>(
    rt: &R,
    patience: Patience,
    base: &Clean,
    cursor: Option<Cursor>,
    ask: &PartAsk,
) -> Result<Pulled, PullFault>
    ensures { IfOk result IsPulled }
{
    match pull_part(rt, patience, base, ask) {
        Ok(part) => Ok(Pulled::InPart(part)),
        Err(PullFault::Status(404)) => pull_whole(rt, patience, base, cursor),
        Err(fault) => Err(fault),
    }
}

impl PullRequest {
    /// Asks the peer, and waits for its answer.
    pub fn pull<R: SocketRuntime>(self, rt: &R, patience: Patience) -> PullAnswer {
        let PullRequest {
            peer,
            base,
            cursor,
            ask,
        } = self;
        let answer = match &ask {
            Some(ask) => pull_in_part(rt, patience, &base, cursor, ask),
            None => pull_whole(rt, patience, &base, cursor),
        };
        PullAnswer {
            answer,
            peer,
            base,
            cursor,
        }
    }
}

/// What a thread that pulls is given.
#[derive(Drop)]
struct Puller {
    patience: Patience,
    requests: Receiver<PullRequest>,
    answers: Sender<PullAnswer>,
}

/// The threads that pull, as the thread that makes the rounds sees them.
#[derive(Drop)]
pub struct Pullers {
    requests: Sender<PullRequest>,
    answers: Receiver<PullAnswer>,
    /// The other ends, until the threads are started.
    ends: Option<Ends>,
    /// How many threads there are.
    count: usize,
}

/// The ends of the channels that the threads have copies of.
#[derive(Drop)]
struct Ends {
    requests: Receiver<PullRequest>,
    answers: Sender<PullAnswer>,
}

/// Pulls, one peer at a time, until no more requests can come.
fn make_pulls<R: SocketRuntime>(rt: &R, puller: Puller) {
    let Puller {
        patience,
        requests,
        answers,
    } = puller;
    for _ in rt.forever() {
        let Ok(request) = requests.recv(rt) else {
            return;
        };
        if answers.send(rt, request.pull(rt, patience)).is_err() {
            return;
        }
    }
    unreachable!()
}

impl Pullers {
    /// Room for pulls from so many peers at once, of which none is begun.
    pub(crate) fn new(alloc: Global, peers: usize) -> Result<Pullers, AllocError> {
        let (requests, requests_out) = bounded(alloc, peers.max(1))?;
        let (answers_in, answers) = bounded(alloc, peers.max(1))?;
        let ends = Ends {
            requests: requests_out,
            answers: answers_in,
        };
        Ok(Pullers {
            requests,
            answers,
            ends: Some(ends),
            count: 0,
        })
    }

    /// Starts a thread for each of so many peers, as far as threads and memory allow. Does nothing if they were started
    /// before.
    pub(crate) fn start<R>(&mut self, rt: &R, peers: usize, patience: Patience)
    where
        R: SocketRuntime + Threads + Sync + Send + Clone + Drop + 'static,
    {
        let Some(ends) = self.ends.take() else {
            return;
        };
        for _ in 0..peers {
            let Ok(puller) = next_puller(patience, &ends) else {
                return;
            };
            let Ok(own) = rt.clone() else {
                return;
            };
            if thread::spawn(rt, move || make_pulls(&own, puller)).is_err() {
                return;
            }
            self.count = self.count.saturating_add(1);
        }
    }

    /// Whether there is a thread that pulls.
    pub fn are_some(&self) -> bool
        ensures { IsTrue result ↔ 0 < self.now.count }
    {
        self.count > 0
    }

    /// Has a peer pulled. Returns whether it will be.
    pub fn ask(&self, rt: &impl Wait, request: PullRequest) -> bool {
        self.requests.send(rt, request).is_ok()
    }

    /// What a peer gave, if one has answered.
    pub fn answered(&self, rt: &impl Wait) -> Option<PullAnswer> {
        self.answers.try_recv(rt).ok()
    }

    /// Waits until a peer answers, for so many milliseconds.
    pub fn wait<R: Wait + Clock>(&self, rt: &R, milliseconds: u64) -> Option<PullAnswer> {
        self.answers
            .recv_timeout(rt, Duration::from_millis(milliseconds))
            .ok()
    }
}

/// What one more thread that pulls is given.
fn next_puller(patience: Patience, ends: &Ends) -> Result<Puller, AllocError> {
    Ok(Puller {
        patience,
        requests: ends.requests.clone()?,
        answers: ends.answers.clone()?,
    })
}
