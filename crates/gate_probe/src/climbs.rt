//! Publishes in a row beside two gates, each of which was told of the publish before and is asked in a thread of its
//! own.
ghost use Rattle.std.specs.Prelude.{◌≡◌, ◌<◌, IfSome};

use crate::harvests::{INCARNATION, merge_at, request, service};
use anyhow::{Context, Result, anyhow};
use memento_index::Merge;
use published_index::{Gate, Merger, Receipt, open};
use std::alloc::Global;
use std::sync::Wait;
use std::thread::{Threads, join_mut};
use timegate::{Header, Reply, Request};

/// How many publishes there are.
pub(crate) const PUBLISHES: u64 = 200;

/// How often each gate is asked beside a publish.
const QUESTIONS: u32 = 50;

/// What stands before the number of a publish in the address of its memento.
const ADDRESS: &[u8] = b"http://m.example/";

/// What a harvest of this number shows: a memento of the second of this number, whose address ends in it.
fn merge_of(alloc: Global, number: u64) -> Result<Merge> {
    let uri = format!(in alloc; "http://m.example/{number}")?;
    merge_at(alloc, b"a1", number, number, uri.as_bytes())
}

/// The number of the memento that a reply leads to, and 0 where it leads to none; `None` where it says something else.
fn number_of(reply: &Reply) -> Option<u64> {
    if reply.status == 404 {
        return Some(0);
    }
    for (header, value) in reply.headers.as_slice() {
        if *header == Header::Location {
            let number = value.as_slice().strip_prefix(ADDRESS)?;
            return str::from_utf8(number).ok()?.parse().ok();
        }
    }
    None
}

/// Asks a gate many times: whether the numbers that it shows never fall, from this one on, nor rise above the last.
fn climbs(gate: &mut Gate, request: &Request, first: u64, last: u64) -> bool
    ensures { gate.new.opening ≡ gate.old.opening }
{
    let mut shown = first;
    for _ in 0..QUESTIONS {
        let Ok(reply) = gate.answer(request) else {
            return false;
        };
        match number_of(&reply) {
            Some(number) if shown <= number && number <= last => shown = number,
            _ => return false,
        }
    }
    true
}

/// Publishes what is pending beside both gates: the receipt, where the publish succeeded and both gates climbed.
fn publish_beside<R: Threads + Wait + Sync>(
    rt: &R,
    merger: &mut Merger,
    one: &mut Gate,
    other: &mut Gate,
    request: &Request,
    number: u64,
) -> Option<Receipt>
    requires { 0 < number }
    ensures merger { merger.new.opening ≡ merger.old.opening }
    ensures one { one.new.opening ≡ one.old.opening }
    ensures other { other.new.opening ≡ other.old.opening }
    ensures receipt { IfSome result (λ told. told.opening ≡ merger.old.opening) }
{
    let before = number - 1;
    let (told, (climbed, climbed_too)) = join_mut(
        rt,
        &mut || merger.publish(rt).ok(),
        &mut || join_mut(
            rt,
            &mut || climbs(one, request, before, number),
            &mut || climbs(other, request, before, number),
        ),
    );
    if climbed && climbed_too { told } else { None }
}

/// So many publishes, each beside both gates: one has learnt the receipt of the publish before, and the other what the
/// merger told then.
fn climb<R: Threads + Wait + Sync>(
    rt: &R,
    alloc: Global,
    merger: &mut Merger,
    one: &mut Gate,
    other: &mut Gate,
    request: &Request,
) -> Result<()>
    requires one { one.old.opening ≡ merger.old.opening }
    requires other { other.old.opening ≡ merger.old.opening }
{
    for number in 1..=PUBLISHES {
        merger.append(&merge_of(alloc, number)?)?;
        other.learn(merger.tell());
        let receipt = publish_beside(rt, merger, one, other, request, number);
        one.learn(receipt.context("a gate went back, or a publish was refused")?);
    }
    Ok(())
}

/// Plays them, with a merger and two gates of its own.
pub(crate) fn play<R: Threads + Wait + Sync>(rt: &R, alloc: Global) -> Result<()> {
    let request = request(alloc, b"/timegate/http://a.example/")?;
    let (mut merger, mut gates) = open(rt, alloc, service(alloc)?, 2, INCARNATION)?;
    let climbed = match (gates.pop(), gates.pop()) {
        (Some(mut one), Some(mut other)) => {
            climb(rt, alloc, &mut merger, &mut one, &mut other, &request)
        }
        _ => Err(anyhow!("there are no two gates")),
    };
    merger.close(rt);
    climbed
}
