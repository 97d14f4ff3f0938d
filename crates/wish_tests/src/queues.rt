//! Tests of the queue of wishes. They are scripts, as those of wishes are.
use crate::wishes::{asked, is_named, named};
use anyhow::{Result, bail};
use std::alloc::{AllocGlobal, Global};
use text_tests::scripts::{Step, is_told, read_step};
use text_tests::tables::{follow, number};
use wish_list::{Queue, Wish};

#[derive(Drop)]
struct Tried {
    alloc: Global,
    queue: Queue,
}

/// A queue of one wish for A, of which nothing is shown, from the seventh minute.
fn one_wish(alloc: Global) -> Result<Tried> {
    let mut queue = Queue::new(alloc);
    queue.push(Wish {
        original: asked(alloc, "a")?,
        is_shown: false,
        is_granted: false,
        minute: 7,
    })?;
    Ok(Tried { alloc, queue })
}

/// `has a: true`.
fn has(tried: &mut Tried, step: Step<'_>) -> Result<bool> {
    let original = named(tried.alloc, step.name)?;
    is_told(tried.alloc, tried.queue.has(&original), step.wanted)
}

/// `has-from a minute 7: true`.
fn has_from(tried: &mut Tried, step: Step<'_>) -> Result<bool> {
    let minute = number(step.second)?;
    let original = named(tried.alloc, step.name)?;
    let is_there = tried.queue.has_from(&original, minute);
    is_told(tried.alloc, is_there, step.wanted)
}

/// `grant: a`, or `grant: none`.
fn grant(tried: &mut Tried, step: Step<'_>) -> Result<bool> {
    is_named(tried.alloc, tried.queue.grant()?, step.wanted)
}

/// `put-back a`.
fn put_back(tried: &mut Tried, step: Step<'_>) -> Result<bool> {
    tried.queue.put_back(&named(tried.alloc, step.name)?);
    Ok(true)
}

/// `end a`.
fn end(tried: &mut Tried, step: Step<'_>) -> Result<bool> {
    tried.queue.end(&named(tried.alloc, step.name)?);
    Ok(true)
}

/// Takes a step of a script; `len: 1` and `unshown: 1` ask how many wishes stand, and how many for what isn't shown.
fn take_step(tried: &mut Tried, line: &str) -> Result<bool> {
    let step = read_step(line);
    match step.verb {
        "len" => is_told(tried.alloc, tried.queue.len(), step.wanted),
        "unshown" => is_told(tried.alloc, tried.queue.unshown(), step.wanted),
        "has" => has(tried, step),
        "has-from" => has_from(tried, step),
        "grant" => grant(tried, step),
        "put-back" => put_back(tried, step),
        "end" => end(tried, step),
        _ => bail!("there is no such step"),
    }
}

/// Follows a script from one wish on.
fn play(alloc: Global, script: &str) -> Result<()> {
    follow(&mut one_wish(alloc)?, script, take_step)
}

#[test]
fn a_queue_has_what_stands_in_it(rt: HostRuntime) -> Result<()> {
    let script = "len: 1
unshown: 1
has a: true
has b: false
has-from a minute 7: true
has-from a minute 8: false
has-from b minute 7: false
";
    play(rt.alloc(), script)
}

#[test]
fn a_queue_grants_once_and_ends_what_it_has(rt: HostRuntime) -> Result<()> {
    let script = "grant: a
grant: none
put-back a
grant: a
end b
len: 1
end a
len: 0
";
    play(rt.alloc(), script)
}
