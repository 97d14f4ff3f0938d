//! The gate of the status' address, and gates whose replies are counted.
ghost use Rattle.std.specs.Prelude.{◌≡◌, IfOk, Err};
ghost use Rattle.service_status.specs.Replies.{IsStatusReply};

use crate::board::StatusBoard;
use crate::counters::ReplyCounter;
use crate::replies::reply_to;
use crate::status::Status;
use gate_server::Answers;
use memento_time::second_now;
use published_index::GateFault;
use std::alloc::AllocGlobal;
use std::sync::{Arc, Mutex, Wait};
use std::time::Clock;
use timegate::{Reply, Request};

/// Answers `/metrics` and `/health` by a board.
#[derive(Drop)]
pub struct StatusGate<R> {
    rt: R,
    status: Arc<Mutex<Status>>,
    /// The counts of the gates' replies, in the order of the gates.
    counters: Vec<ReplyCounter>,
}

impl<R: Clock + Wait + AllocGlobal + Drop> StatusGate<R> {
    /// A gate that answers by this board, if it is open, and by these counts of the gates' replies.
    pub fn new(rt: R, board: StatusBoard, counters: Vec<ReplyCounter>) -> Option<StatusGate<R>> {
        let status = board.shared?;
        Some(StatusGate {
            rt,
            status,
            counters,
        })
    }

    /// The reply to a request. The text is written while the status is locked, which takes a fraction of a millisecond
    /// for a hundred archives.
    fn reply(&mut self, request: &Request) -> Result<Reply, GateFault>
        ensures allowed { IfOk result (IsStatusReply request.now) }
        ensures open { result ≡ Err GateFault.Closed → ⊥ }
    {
        let alloc = self.rt.alloc();
        let clock = second_now(&self.rt);
        let mut status = self.status.lock(&self.rt);
        status.clock = clock;
        for (gate, counter) in status.gates.iter_mut().zip(&self.counters) {
            gate.replies = counter.counts();
        }
        match reply_to(alloc, &status, request) {
            Ok(reply) => Ok(reply),
            Err(_) => Err(GateFault::NoMemory),
        }
    }
}

impl<R: Clock + Wait + AllocGlobal + Drop> Answers for StatusGate<R> {
    ghost use Rattle.std.specs.Prelude.{⊤};
    ghost use Rattle.service_status.specs.Replies.{IsStatusReply};

    ghost shows = { λ _. IsStatusReply };

    ghost follows = { λ _ _. ⊤ };

    ghost may_close = { ⊥ };

    fn answer(&mut self, request: &Request) -> Result<Reply, GateFault> {
        self.reply(request)
    }

    ghost stays = { λ _. tt };

    ghost goes_on = { λ _ _ _ _ _. tt };
}

/// A gate whose replies are counted by their status. It answers what the gate inside answers.
#[derive(Drop)]
pub struct CountingGate<G> {
    gate: G,
    counter: ReplyCounter,
}

impl<G> CountingGate<G> {
    /// A gate whose replies are added to these counts.
    pub fn new(gate: G, counter: ReplyCounter) -> CountingGate<G>
        ensures { result ≡ record { gate = gate; counter = counter } }
    {
        CountingGate { gate, counter }
    }
}

impl<G: Answers> Answers for CountingGate<G> {
    ghost shows = { λ it. G.shows it.gate };

    ghost follows = { λ it next. G.follows it.gate next.gate };

    ghost may_close = { G.may_close };

    fn answer(&mut self, request: &Request) -> Result<Reply, GateFault> {
        let answered = self.gate.answer(request);
        match &answered {
            Ok(reply) => self.counter.add(reply.status),
            // A service answers 503 in place of a fault.
            Err(_) => self.counter.add(503),
        }
        answered
    }

    /// What is held isn't counted until its reply is given.
    fn answer_or_hold(
        &mut self,
        request: &Request,
        is_held: bool,
    ) -> Result<Option<Reply>, GateFault> {
        let answered = self.gate.answer_or_hold(request, is_held);
        match &answered {
            Ok(Some(reply)) => self.counter.add(reply.status),
            Ok(None) => {}
            Err(_) => self.counter.add(503),
        }
        answered
    }

    ghost stays = { λ it. G.stays it.gate };

    ghost goes_on = { λ it next last. G.goes_on it.gate next.gate last.gate };
}
