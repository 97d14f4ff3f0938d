//! Calls of mergers and gates, of what stands between them and HTTP, and of settings.
ghost use Rattle.std.specs.Prelude.{◌≡◌};

use anyhow::Result;
use delta_parts::PartAsk;
use gate_server::{Answers, GateService, Readiness, form, request_of};
use memento_time::{Items, Octets};
use outgoing_requests::{Agent, allowed_addresses, read_host};
use part_gates::{NamesBase, PartGate};
use published_index::{Gate, GateFault, Merger, ask_both, open};
use refused_calls::{Change, Tried, insist, share};
use replica_exchange::{Delta, read_delta};
use std::alloc::Global;
use std::marker::Brand;
use std::net::{IpAddr, Ipv4Addr, SocketAddr};
use std::sync::Wait;
use std::sync::atomic::{AtomicU64, Ordering};
use timegate::{Reply, Request};
use timemap_writer::Service;
use url::Host;

const DELTA: &[u8] = b"memento-delta 2
from 1 0 1
entries 1
entry a1 1 1 http://a.example/
at 1 1
946684800 http://m.example/1
end
";

/// How many bytes of entries' lines fill a part.
const ROOM: usize = 1;

/// Calls without a runtime.
#[derive(Clone, Copy, Debug)]
enum OnEdge {
    ReadHost,
    AllowedAddresses,
    RequestOf,
    Form,
    AgentNew,
    ReadinessNew,
    ReadinessShare,
}

const ON_EDGE: [OnEdge; 6] = [
    OnEdge::ReadHost,
    OnEdge::AllowedAddresses,
    OnEdge::RequestOf,
    OnEdge::Form,
    OnEdge::AgentNew,
    OnEdge::ReadinessNew,
];

fn service(alloc: Global) -> Option<Service> {
    Service::new(alloc, "http://agg.example").ok()
}

/// GET of this target, without a datetime.
pub(crate) fn get(alloc: Global, target: &[u8]) -> Option<Request> {
    Some(Request {
        method: Octets::from_slice(alloc, b"GET").ok()?,
        target: Octets::from_slice(alloc, target).ok()?,
        asked: Items::of(Vec::new(alloc)),
    })
}

fn reply(alloc: Global) -> Option<Reply> {
    Some(Reply {
        status: 404,
        headers: Items::of(Vec::new(alloc)),
        body: Octets::from_slice(alloc, b"no memento").ok()?,
    })
}

fn try_on_edge(alloc: Global, call: OnEdge) -> Option<Tried> {
    let is_answered = match call {
        OnEdge::ReadHost => read_host(alloc, "a.example:8080").is_ok(),
        OnEdge::AllowedAddresses => {
            let address = SocketAddr::new(IpAddr::V4(Ipv4Addr::new(9, 9, 9, 9)), 80);
            allowed_addresses(alloc, &Host::Domain("a.example"), &[address]).is_ok()
        }
        OnEdge::RequestOf => request_of(alloc, &http::Request::new(alloc, ())).is_ok(),
        OnEdge::Form => form(alloc, &reply(alloc)?).is_ok(),
        OnEdge::AgentNew => Agent::new(alloc, "Maplewrench").is_ok(),
        OnEdge::ReadinessNew => Readiness::new(alloc).is_ok(),
        OnEdge::ReadinessShare => Readiness::new(alloc).ok()?.share().is_ok(),
    };
    Some(Tried::of(is_answered))
}

/// Answers each request alike, without a body.
#[derive(Clone, Copy)]
struct Steady {
    alloc: Global,
}

impl Answers for Steady {
    ghost use Rattle.std.specs.Prelude.{⊤};

    ghost shows = { λ _ _ _. ⊤ };

    ghost follows = { λ _ _. ⊤ };

    ghost may_close = { ⊤ };

    fn answer(&mut self, _request: &Request) -> Result<Reply, GateFault> {
        let body = Vec::from_slice(self.alloc, b"no memento").map_err(|_| GateFault::NoMemory)?;
        Ok(Reply {
            status: 404,
            headers: Items::of(Vec::new(self.alloc)),
            body: Octets::of(body),
        })
    }

    ghost stays = { λ _. tt };

    ghost goes_on = { λ _ _ _ _ _. tt };
}

/// Calls of a service, of a merger and of its gates.
#[derive(Clone, Copy, Debug)]
enum OnGate {
    Open,
    GateAnswerThen,
    GateAnswerPart,
    PartGateReply,
    AskBoth,
    MergerAppendDelta,
    MergerTakeDelta,
}

/// The call of a service.
#[derive(Clone, Copy, Debug)]
enum Responding {
    GateServiceRespond,
}

const ON_GATES: [OnGate; 7] = [
    OnGate::Open,
    OnGate::GateAnswerThen,
    OnGate::GateAnswerPart,
    OnGate::PartGateReply,
    OnGate::AskBoth,
    OnGate::MergerAppendDelta,
    OnGate::MergerTakeDelta,
];

fn try_open<R: Wait>(rt: &R, alloc: Global) -> Option<Tried> {
    let base = service(alloc)?;
    let Ok((merger, _gates)) = open(rt, alloc, base, 1, 1) else {
        return Some(Tried::Refused);
    };
    merger.close(rt);
    Some(Tried::Answered)
}

/// Asks a gate, with something to do before its entry ends, which counts; returns whether there is a reply.
fn answer_counting(gate: &mut Gate, question: &Request, done: &AtomicU64) -> bool {
    gate.answer_then(question, || {
        done.fetch_add(1, Ordering::SeqCst);
    })
    .is_ok()
}

/// What a gate is to do is done once with a reply, and not where the reply is refused.
fn answer_and_count(gate: &mut Gate, question: &Request) -> Tried {
    let done = AtomicU64::new(0);
    if answer_counting(gate, question, &done) {
        return Tried::of(done.load(Ordering::SeqCst) == 1);
    }
    let is_as_before = done.load(Ordering::SeqCst) == 0;
    let is_repeated = answer_counting(gate, question, &done) && done.load(Ordering::SeqCst) == 1;
    Tried::of_change(Change {
        is_answered: false,
        is_as_before,
        is_repeated,
    })
}

fn try_answer_then<R: Wait>(rt: &R, alloc: Global) -> Option<Tried> {
    let question = get(alloc, b"/state")?;
    let base = service(alloc)?;
    let Ok((merger, mut gates)) = open(rt, alloc, base, 1, 1) else {
        return None;
    };
    let mut tried = None;
    if let Some(mut gate) = gates.pop() {
        tried = Some(answer_and_count(&mut gate, &question));
    }
    merger.close(rt);
    tried
}

/// Whether a gate with room for parts replies with one.
fn replies_with_part<B: NamesBase>(alloc: Global, gate: Gate, question: &Request) -> bool
    requires { gate.base ≡ B.base }
{
    let mut gate: PartGate<B> = PartGate::new(alloc, gate, Some(ROOM));
    matches!(gate.reply(question), Ok(reply) if reply.status == 200)
}

/// Asks a gate for the first part of all that it knows, by itself or with room for parts.
fn ask_for_part(alloc: Global, mut gate: Gate, call: OnGate, question: &Request) -> Tried {
    let is_answered = match call {
        OnGate::PartGateReply => replies_with_part::<Brand>(alloc, gate, question),
        _ => gate.answer_part(&PartAsk::First(None), ROOM).is_ok(),
    };
    Tried::of(is_answered)
}

fn try_part<R: Wait>(rt: &R, alloc: Global, call: OnGate) -> Option<Tried> {
    let question = get(alloc, b"/part")?;
    let base = service(alloc)?;
    let Ok((merger, mut gates)) = open(rt, alloc, base, 1, 1) else {
        return None;
    };
    let mut tried = None;
    if let Some(gate) = gates.pop() {
        tried = Some(ask_for_part(alloc, gate, call, &question));
    }
    merger.close(rt);
    tried
}

fn try_ask_both<R: Wait>(rt: &R, alloc: Global) -> Option<Tried> {
    let question = get(alloc, b"/state")?;
    let base = service(alloc)?;
    let Ok((merger, mut gates)) = open(rt, alloc, base, 2, 1) else {
        return None;
    };
    let mut tried = None;
    if let (Some(mut one), Some(mut other)) = (gates.pop(), gates.pop()) {
        tried = Some(Tried::of(ask_both(&mut one, &mut other, &question).is_ok()));
    }
    merger.close(rt);
    tried
}

/// What a gate answers once all that is pending is published.
fn status_after_publish<R: Wait>(
    rt: &R,
    merger: &mut Merger,
    gate: &mut Gate,
    question: &Request,
) -> Option<u16> {
    merger.publish(rt).ok()?;
    let reply = gate.answer(question).ok()?;
    Some(reply.status)
}

/// Has a merger take a peer's delta by this call. Returns whether it did.
fn is_taken(merger: &mut Merger, call: OnGate, delta: &Delta) -> bool {
    match call {
        OnGate::MergerTakeDelta => merger.take_delta(1, delta).is_ok(),
        _ => merger.append_delta(1, delta).is_ok(),
    }
}

/// Takes a peer's delta: where it is refused no cursor moves and nothing is pending.
fn take<R: Wait>(
    rt: &R,
    merger: &mut Merger,
    gate: &mut Gate,
    call: OnGate,
    delta: &Delta,
    question: &Request,
) -> Tried {
    if is_taken(merger, call, delta) {
        return Tried::Answered;
    }
    let is_as_before = merger.cursor(1).is_none()
        && status_after_publish(rt, merger, gate, question) == Some(404);
    let is_repeated = is_taken(merger, call, delta)
        && status_after_publish(rt, merger, gate, question) == Some(302);
    Tried::of_change(Change {
        is_answered: false,
        is_as_before,
        is_repeated,
    })
}

fn try_take<R: Wait>(rt: &R, alloc: Global, call: OnGate) -> Option<Tried> {
    let delta = read_delta(alloc, DELTA).ok()?;
    let question = get(alloc, b"/timegate/http://a.example/")?;
    let base = service(alloc)?;
    let Ok((mut merger, mut gates)) = open(rt, alloc, base, 1, 1) else {
        return None;
    };
    let mut tried = None;
    if let Some(mut gate) = gates.pop() {
        tried = Some(take(rt, &mut merger, &mut gate, call, &delta, &question));
    }
    merger.close(rt);
    tried
}

fn try_on_gate<R: Wait>(rt: &R, alloc: Global, call: OnGate) -> Option<Tried> {
    match call {
        OnGate::Open => try_open(rt, alloc),
        OnGate::GateAnswerThen => try_answer_then(rt, alloc),
        OnGate::GateAnswerPart | OnGate::PartGateReply => try_part(rt, alloc, call),
        OnGate::AskBoth => try_ask_both(rt, alloc),
        OnGate::MergerAppendDelta | OnGate::MergerTakeDelta => try_take(rt, alloc, call),
    }
}

fn try_respond<R: Wait + Clone + Drop>(rt: &R, alloc: Global) -> Option<Tried> {
    let question = get(alloc, b"/state")?;
    let own = rt.clone().ok()?;
    let service = GateService::new(alloc, own, Steady { alloc }).ok()?;
    Some(Tried::of(service.respond(&question).is_ok()))
}

/// Makes each call, and names it.
pub(crate) fn perform<R: Wait + Print + Eprint + Clone + Drop>(
    rt: &R,
    alloc: Global,
) -> Result<()> {
    for call in ON_EDGE {
        insist(rt, call, || try_on_edge(alloc, call))?;
    }
    share(
        rt,
        OnEdge::ReadinessShare,
        || try_on_edge(alloc, OnEdge::ReadinessShare),
    )?;
    for call in ON_GATES {
        insist(rt, call, || try_on_gate(rt, alloc, call))?;
    }
    insist(
        rt,
        Responding::GateServiceRespond,
        || try_respond(rt, alloc),
    )
}
