//! Rounds of a publish beside a gate that isn't told of it.
ghost use Rattle.std.specs.Prelude.{◌≡◌};

use crate::harvests::{INCARNATION, merge, request, service};
use anyhow::{Result, bail};
use memento_index::Merge;
use published_index::{Gate, GateFault, Merger, open};
use std::alloc::Global;
use std::sync::Wait;
use std::thread::{Threads, join};
use timegate::{Header, Reply, Request};
use timemap_writer::Service;

/// How often the gate that isn't told is asked.
const QUESTIONS: u32 = 50;

const MEMENTO: &[u8] = b"http://m.example/1";

/// What the TimeGate answers.
#[derive(Clone, Copy, Debug, PartialEq, Eq)]
enum Shown {
    /// 404.
    Nothing,
    /// 302 to the memento.
    Memento,
    /// Anything else.
    Other,
}

fn location(reply: &Reply) -> Option<&[u8]> {
    for (header, value) in reply.headers.as_slice() {
        if *header == Header::Location {
            return Some(value.as_slice());
        }
    }
    None
}

fn shown_by(reply: Result<Reply, GateFault>) -> Shown {
    match reply {
        Ok(reply) if reply.status == 404 => Shown::Nothing,
        Ok(reply) if reply.status == 302 && location(&reply) == Some(MEMENTO) => Shown::Memento,
        _ => Shown::Other,
    }
}

/// Publishes, and asks a gate that learnt the receipt.
fn publish_and_ask<R: Wait>(rt: &R, merger: &mut Merger, mut gate: Gate, request: &Request) -> Shown
    requires { gate.opening ≡ merger.old.opening }
{
    match merger.publish(rt) {
        Ok(receipt) => {
            gate.learn(receipt);
            shown_by(gate.answer(request))
        }
        Err(_) => Shown::Other,
    }
}

/// Asks a gate many times: whether it shows nothing until it shows the memento, and the memento from then on.
fn goes_on(mut gate: Gate, request: &Request) -> bool {
    let mut before = Shown::Nothing;
    for _ in 0..QUESTIONS {
        let now = shown_by(gate.answer(request));
        if now == Shown::Other || (before == Shown::Memento && now == Shown::Nothing) {
            return false;
        }
        before = now;
    }
    true
}

fn publish_beside_a_reader<R: Threads + Wait + Sync>(
    rt: &R,
    merger: &mut Merger,
    informed: Gate,
    other: Gate,
    request: &Request,
) -> (Shown, bool)
    requires { informed.opening ≡ merger.old.opening }
{
    join(
        rt,
        move || publish_and_ask(rt, merger, informed, request),
        move || goes_on(other, request),
    )
}

fn play_once<R: Threads + Wait + Sync>(
    rt: &R,
    alloc: Global,
    service: Service,
    merge: &Merge,
    request: &Request,
) -> Result<()> {
    let (mut merger, mut gates) = open(rt, alloc, service, 2, INCARNATION)?;
    let appended = merger.append(merge);
    let mut seen = (Shown::Other, false);
    if let (Some(informed), Some(other)) = (gates.pop(), gates.pop()) {
        seen = publish_beside_a_reader(rt, &mut merger, informed, other, request);
    }
    merger.close(rt);
    if appended.is_err() || seen != (Shown::Memento, true) {
        bail!("a gate didn't show what was published");
    }
    Ok(())
}

/// Plays so many rounds, each with a merger and two gates of its own.
pub(crate) fn play<R: Threads + Wait + Sync>(rt: &R, alloc: Global, count: u32) -> Result<()> {
    let service = service(alloc)?;
    let merge = merge(alloc, b"a1", 0, MEMENTO)?;
    let request = request(alloc, b"/timegate/http://a.example/")?;
    for _ in 0..count {
        play_once(rt, alloc, service.try_clone()?, &merge, &request)?;
    }
    Ok(())
}
