//! Gates that answer only once they are told to.
ghost use Rattle.std.specs.Prelude.{◌≡◌};

use crate::answers::Answers;
use memento_time::NoMemory;
use published_index::GateFault;
use std::alloc::Global;
use std::sync::Arc;
use std::sync::atomic::{AtomicBool, Ordering};
use timegate::{Reply, Request};

/// Whether gates are to answer. Its owners share one flag, which is set at most once and then stays.
#[derive(Drop)]
pub struct Readiness {
    is_set: Arc<AtomicBool>,
}

impl Readiness {
    /// A flag that isn't set.
    pub fn new(alloc: Global) -> Result<Readiness, NoMemory> {
        let is_set = Arc::new(alloc, AtomicBool::new(false))?;
        Ok(Readiness { is_set })
    }

    /// Another owner of the same flag.
    pub fn share(&self) -> Result<Readiness, NoMemory> {
        let is_set = Arc::try_clone(&self.is_set)?;
        Ok(Readiness { is_set })
    }

    /// Lets the gates answer from now on.
    pub fn set(&self) {
        self.is_set.store(true, Ordering::SeqCst);
    }

    /// Whether the flag is set.
    pub fn is_set(&self) -> bool {
        self.is_set.load(Ordering::SeqCst)
    }
}

/// Answers as the gate inside does, once the flag is set. Until then each request gets `NoMemory`, for which a service
/// answers 503: so a proxy asks another replica, where a 404 would be the answer.
#[derive(Drop)]
pub struct ReadyGate<G> {
    gate: G,
    readiness: Readiness,
}

impl<G> ReadyGate<G> {
    /// A gate that answers once this flag is set.
    pub fn new(gate: G, readiness: Readiness) -> ReadyGate<G>
        ensures { result ≡ record { gate = gate; readiness = readiness } }
    {
        ReadyGate { gate, readiness }
    }
}

impl<G: Answers> Answers for ReadyGate<G> {
    ghost shows = { λ it. G.shows it.gate };

    ghost follows = { λ it next. G.follows it.gate next.gate };

    ghost may_close = { G.may_close };

    fn answer(&mut self, request: &Request) -> Result<Reply, GateFault> {
        if !self.readiness.is_set() {
            return Err(GateFault::NoMemory);
        }
        self.gate.answer(request)
    }

    fn answer_or_hold(
        &mut self,
        request: &Request,
        is_held: bool,
    ) -> Result<Option<Reply>, GateFault> {
        if !self.readiness.is_set() {
            return Err(GateFault::NoMemory);
        }
        self.gate.answer_or_hold(request, is_held)
    }

    ghost stays = { λ it. G.stays it.gate };

    ghost goes_on = { λ it next last. G.goes_on it.gate next.gate last.gate };
}
