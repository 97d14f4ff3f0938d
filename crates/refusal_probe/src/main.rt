//! Performs an exchange of two replicas, a walk over an archive's pages and rounds of walks, while requests for memory
//! may be refused, and looks for an answer that changed in place of the refusal, at that call or the next.
//!
//! `tests/memory` refuses each request in turn. Whichever is refused, the same is printed: an event that is
//! refused because memory ran out leaves every reply as it was, and takes place when it comes again; a walk that is
//! refused memory says so, also within a round, and what it fetched up to there is the beginning of the whole record.
//!
//! With the word `calls` it makes public calls of the crates below instead, and names each that is refused.
#![tactic(auto)]

mod exchange;
mod lattice;
mod makers;
mod parts;
mod replicas;
mod replies;
mod texts;
mod walks;

use crate::exchange::{Exchange, begin};
use crate::replies::{is_same, replies_of_all};
use anyhow::{Result, bail};
use refused_calls::insist as insist_call;
use replica_world::{Event, EventAnswer, Refused, Said, World};
use std::alloc::Global;
use std::env;
use std::io::Write;
use timegate::{Reply, Request};

/// What the event is answered, at the second try where the first ran out of memory.
fn insist(
    alloc: Global,
    world: &mut World,
    event: &Event,
    questions: &[Request],
) -> Result<EventAnswer> {
    let before = replies_of_all(alloc, world, questions)?;
    let answer = world.step(event);
    if !matches!(answer, Err(Refused::NoMemory)) {
        return Ok(answer);
    }
    if !is_same(&replies_of_all(alloc, world, questions)?, &before) {
        bail!("a refused event changed a reply");
    }
    Ok(world.step(event))
}

fn print_answer(rt: &HostRuntime, answer: &EventAnswer) -> Result<()> {
    match answer {
        Ok(Said::Taken) => println!(rt; "taken")?,
        Ok(Said::Sent(number)) => println!(rt; "sent {number}")?,
        Ok(Said::Joined) => println!(rt; "joined")?,
        Ok(Said::Restarted) => println!(rt; "restarted")?,
        Ok(Said::Replied(reply)) => print_reply(rt, reply)?,
        Err(refused) => println!(rt; "refused {refused}")?,
    }
    Ok(())
}

fn print_reply(rt: &HostRuntime, reply: &Reply) -> Result<()> {
    println!(rt; "reply {}", reply.status)?;
    for (header, value) in reply.headers.as_slice() {
        print!(rt; "{header}: ")?;
        rt.stdout().write_all(value.as_slice())?;
        println!(rt; "")?;
    }
    rt.stdout().write_all(reply.body.as_slice())?;
    Ok(())
}

/// Whether the first word is `calls`.
fn asks_for_calls(rt: &HostRuntime) -> Result<bool> {
    let mut words = env::args(rt)?.skip(1);
    Ok(words.next().is_some_and(|word| word.as_str() == "calls"))
}

/// Performs the exchange, and prints every answer and, at the end, every reply.
fn perform_exchange(rt: &HostRuntime, alloc: Global) -> Result<()> {
    let Exchange {
        mut world,
        events,
        questions,
    } = begin(alloc).or_else(|_| begin(alloc))?;
    for event in &events {
        let answer = insist(alloc, &mut world, event, &questions)?;
        print_answer(rt, &answer)?;
    }
    for reply in &replies_of_all(alloc, &world, &questions)? {
        print_reply(rt, reply)?;
    }
    Ok(())
}

/// Only `main` may wait and start threads.
fn main(rt: HostRuntime) -> Result<()> {
    let alloc = rt.alloc();
    if asks_for_calls(&rt).or_else(|_| asks_for_calls(&rt))? {
        texts::perform(&rt, alloc)?;
        lattice::perform(&rt, alloc)?;
        replicas::perform(&rt, alloc)?;
        parts::perform(&rt, alloc)?;
        return insist_call(&rt, walks::Adding::MemoryFetchAdd, || walks::try_add(&rt));
    }
    perform_exchange(&rt, alloc)?;
    let archive = walks::make_archive(alloc).or_else(|_| walks::make_archive(alloc))?;
    let outcome = walks::insist(&rt, &archive)?;
    walks::print_outcome(&rt, &outcome)?;
    for workers in [1, 2, 64] {
        println!(rt; "workers {workers}")?;
        for outcome in &walks::insist_round(&rt, &archive, workers)? {
            walks::print_outcome(&rt, outcome)?;
        }
    }
    Ok(())
}
