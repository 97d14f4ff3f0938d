//! Gates that go on with another gate.
ghost use Rattle.std.specs.Prelude.{◌≡◌, IfOk, IfSome, None, false};

use crate::slots::GateSlot;
use gate_server::Answers;
use published_index::GateFault;
use std::sync::Wait;
use timegate::{Reply, Request};

/// Answers as the gate that it was handed last. Until one is handed to it, that is the gate that it was made with.
#[derive(Drop)]
pub struct SwitchingGate<G, R> {
    rt: R,
    gate: G,
    slot: GateSlot<G>,
}

impl<G: Answers, R: Wait + Drop> SwitchingGate<G, R> {
    pub fn new(rt: R, gate: G, slot: GateSlot<G>) -> SwitchingGate<G, R>
        ensures gate { result.gate ≡ gate }
        ensures slot { result.slot ≡ slot }
    {
        SwitchingGate { rt, gate, slot }
    }

    /// Takes the newest gate, if one was left. Doesn't wait.
    fn go_on(&mut self)
        ensures slot { self.new.slot ≡ self.old.slot }
        ensures closed { self.old.slot.shared ≡ None → self.new.gate ≡ self.old.gate }
    {
        if let Some(next) = self.slot.newest() {
            self.gate = next;
        }
    }

    /// Takes the gate that is being left, if there is one. Returns whether there was one.
    fn go_on_at_last(&mut self) -> bool
        ensures slot { self.new.slot ≡ self.old.slot }
        ensures closed { self.old.slot.shared ≡ None → result ≡ false }
        ensures same { result ≡ false → self.new ≡ self.old }
    {
        match self.slot.awaited(&self.rt) {
            Some(next) => {
                self.gate = next;
                true
            }
            None => false,
        }
    }
}

impl<G: Answers, R: Wait + Drop> Answers for SwitchingGate<G, R> {
    ghost use Rattle.switching_gates.specs.Switching.{Switches, goes_on_switching, stays_without_switching};

    ghost shows = { λ it. G.shows it.gate };

    ghost follows = { λ it next. Switches G.follows it.slot.shared it.gate next.slot.shared next.gate };

    ghost may_close = { G.may_close };

    /// Before each answer the newest gate is taken, without waiting. A merger is closed only after its gates were
    /// handed others, so one that finds itself closed looks once more.
    fn answer(&mut self, request: &Request) -> Result<Reply, GateFault> {
        self.go_on();
        match self.gate.answer(request) {
            Err(GateFault::Closed) => {
                if !self.go_on_at_last() {
                    return Err(GateFault::Closed);
                }
                self.gate.answer(request)
            }
            answered => answered,
        }
    }

    fn answer_or_hold(
        &mut self,
        request: &Request,
        is_held: bool,
    ) -> Result<Option<Reply>, GateFault> {
        self.go_on();
        match self.gate.answer_or_hold(request, is_held) {
            Err(GateFault::Closed) => {
                if !self.go_on_at_last() {
                    return Err(GateFault::Closed);
                }
                self.gate.answer_or_hold(request, is_held)
            }
            answered => answered,
        }
    }

    ghost stays = { λ it. stays_without_switching G.follows G.stays it.slot.shared it.gate };

    ghost goes_on = { λ it next last. goes_on_switching G.follows G.goes_on it.slot.shared it.gate next.slot.shared
        next.gate last.slot.shared last.gate };
}
