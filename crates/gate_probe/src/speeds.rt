//! How many replies a second gates give, how long a publish takes and how much memory, over an index of 1,000,000
//! mementos.
use crate::harvests::{INCARNATION, many, question, service};
use anyhow::{Context, Result, bail};
use published_index::{Gate, MOST_GATES, Merger, open};
use std::alloc::Global;
use std::sync::Wait;
use std::sync::atomic::{AtomicU64, Ordering};
use std::thread::{Threads, for_each_mut, join};
use std::time::{Clock, Instant};
use timegate::Request;

/// So many originals, of so many mementos each.
const ORIGINALS: u32 = 1_000;

const MEMENTOS: u32 = 1_000;

/// How often each gate is asked each question.
const TURNS: u32 = 200;

/// What a harvest has that is published while gates are asked, or timed.
const HARVEST: u32 = 100;

/// A gate, and whether it answered all that it was asked so far.
#[derive(Drop)]
struct Asker {
    gate: Gate,
    answered: bool,
}

impl Asker {
    /// Asks each question, which must be answered with a redirect.
    fn ask_each(&mut self, questions: &[Request]) {
        for question in questions {
            let redirected = match self.gate.answer(question) {
                Ok(reply) => reply.status == 302,
                Err(_) => false,
            };
            self.answered = self.answered && redirected;
        }
    }

    fn ask_often(&mut self, questions: &[Request]) {
        for _ in 0..TURNS {
            self.ask_each(questions);
        }
    }
}

fn questions(alloc: Global) -> Result<Vec<Request>> {
    let mut all = Vec::new(alloc);
    for number in 0..ORIGINALS {
        all.push(question(alloc, number)?)?;
    }
    Ok(all)
}

/// Publishes all mementos, original by original, and then nothing, so that both copies have them and nothing else is
/// kept.
fn fill<R: Wait>(rt: &R, alloc: Global, merger: &mut Merger) -> Result<()> {
    for number in 0..ORIGINALS {
        merger.append(&many(alloc, number, MEMENTOS, 1)?)?;
        merger.publish(rt)?;
    }
    merger.publish(rt)?;
    Ok(())
}

/// Publishes 1,000,000 mementos, for whoever watches how much memory that takes.
pub(crate) fn hold<R: Wait>(rt: &R, alloc: Global) -> Result<()> {
    let (mut merger, _gates) = open(rt, alloc, service(alloc)?, 1, INCARNATION)?;
    let filled = fill(rt, alloc, &mut merger);
    merger.close(rt);
    filled
}

/// Appends a harvest and publishes it, over and over until the flag is 1: how often, or none where something was
/// refused.
fn publish_until<R: Wait>(
    rt: &R,
    alloc: Global,
    merger: &mut Merger,
    flag: &AtomicU64,
) -> Option<u64> {
    for published in 0..u64::MAX {
        if flag.load(Ordering::SeqCst) == 1 {
            return Some(published);
        }
        let number = ORIGINALS.checked_add((published % 100) as u32)?;
        let merge = many(alloc, number, HARVEST, published).ok()?;
        merger.append(&merge).ok()?;
        merger.publish(rt).ok()?;
    }
    None
}

/// Asks all gates in threads of their own: how many replies a second they give together.
fn ask_all<R: Threads + Clock + Sync>(
    rt: &R,
    askers: &mut [Asker],
    questions: &[Request],
) -> Result<u64> {
    let threads = askers.len().max(1);
    let start = Instant::now(rt)?;
    for_each_mut(
        rt,
        askers,
        threads,
        &|_, asker: &mut Asker| { asker.ask_often(questions) },
    );
    let Ok(spent) = u64::try_from(start.elapsed(rt)?.as_micros()) else {
        bail!("it took too long");
    };
    let replies = (questions.len() as u64)
        .saturating_mul(u64::from(TURNS))
        .saturating_mul(askers.len() as u64);
    Ok(replies.saturating_mul(1_000_000) / spent.max(1))
}

/// The two speeds: of the gates alone, and while the merger publishes; and how often it did.
#[derive(Clone, Copy, Debug)]
struct Speeds {
    alone: u64,
    beside: u64,
    published: u64,
}

fn compare<R: Threads + Wait + Clock + Sync>(
    rt: &R,
    alloc: Global,
    merger: &mut Merger,
    askers: &mut [Asker],
) -> Result<Speeds> {
    fill(rt, alloc, merger)?;
    let questions = questions(alloc)?;
    let alone = ask_all(rt, askers, &questions)?;
    let flag = AtomicU64::new(0);
    let (published, beside) = join(
        rt,
        || publish_until(rt, alloc, merger, &flag),
        || {
            let speed = ask_all(rt, askers, &questions);
            flag.store(1, Ordering::SeqCst);
            speed
        },
    );
    Ok(Speeds {
        alone,
        beside: beside?,
        published: published.context("a publish was refused")?,
    })
}

/// Asks the gates alone, and then while the merger publishes.
fn measure_gates<R: Threads + Wait + Clock + Sync>(
    rt: &R,
    alloc: Global,
    merger: &mut Merger,
    gates: Vec<Gate>,
) -> Result<Speeds> {
    let mut askers = Vec::new(alloc);
    for gate in gates {
        askers.push(Asker {
            gate,
            answered: true,
        })?;
    }
    let speeds = compare(rt, alloc, merger, &mut askers)?;
    if !askers.iter().all(|asker| asker.answered) {
        bail!("a gate didn't answer with a redirect");
    }
    Ok(speeds)
}

/// Prints how many replies a second so many gates give alone, and while the merger publishes as fast as it can.
pub(crate) fn measure_readers<R: Threads + Wait + Clock + Print + Sync>(
    rt: &R,
    alloc: Global,
    gates: u32,
) -> Result<()> {
    let gates = gates as usize;
    if gates == 0 || gates > MOST_GATES {
        bail!("there are 1 to {MOST_GATES} gates");
    }
    let (mut merger, made) = open(rt, alloc, service(alloc)?, gates, INCARNATION)?;
    let speeds = measure_gates(rt, alloc, &mut merger, made);
    merger.close(rt);
    let Speeds {
        alone,
        beside,
        published,
    } = speeds?;
    println!(rt;
        "{gates} gates: {alone} replies a second alone, {beside} beside {published} publishes"
    )?;
    Ok(())
}

/// Microseconds that a publish of so many harvests takes, and the next one, in which the other copy takes them.
fn time_publish<R: Wait + Clock>(
    rt: &R,
    alloc: Global,
    merger: &mut Merger,
    pending: u32,
) -> Result<(u128, u128)> {
    for number in 0..pending {
        merger.append(&many(alloc, number, HARVEST, u64::from(pending).saturating_add(1))?)?;
    }
    let start = Instant::now(rt)?;
    merger.publish(rt)?;
    let first = start.elapsed(rt)?.as_micros();
    let start = Instant::now(rt)?;
    merger.publish(rt)?;
    Ok((first, start.elapsed(rt)?.as_micros()))
}

fn time_publishes<R: Wait + Clock + Print>(
    rt: &R,
    alloc: Global,
    merger: &mut Merger,
) -> Result<()> {
    fill(rt, alloc, merger)?;
    for pending in [0, 1, 10, 100, 1_000] {
        let (first, second) = time_publish(rt, alloc, merger, pending)?;
        println!(rt; "{pending} pending: {first} microseconds, and {second} in the next publish")?;
    }
    Ok(())
}

/// Prints how long publishes take, by the number of pending harvests of 100 mementos.
pub(crate) fn measure_publishes<R: Wait + Clock + Print>(rt: &R, alloc: Global) -> Result<()> {
    let (mut merger, _gates) = open(rt, alloc, service(alloc)?, 1, INCARNATION)?;
    let timed = time_publishes(rt, alloc, &mut merger);
    merger.close(rt);
    timed
}
