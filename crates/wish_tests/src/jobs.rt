//! Tests of the jobs of granted wishes. They are scripts, as those of wishes are; of three archives `-x-` marks the
//! second.
use crate::wishes::named;
use anyhow::{Result, bail};
use std::alloc::{AllocGlobal, Global};
use text_tests::scripts::{Step, is_told, read_step};
use text_tests::tables::{follow, number};
use wish_list::{Ask, WishAnswer, WishJobs};

#[derive(Drop)]
struct Tried {
    alloc: Global,
    jobs: WishJobs,
}

/// Which archives are marked.
fn marked(alloc: Global, marks: &str) -> Result<Vec<bool>> {
    let mut marked = Vec::new(alloc);
    for mark in marks.as_bytes() {
        marked.push(*mark == b'x')?;
    }
    Ok(marked)
}

/// The archive of a number.
fn archive(number_of_it: &str) -> Result<usize> {
    Ok(usize::try_from(number(number_of_it)?)?)
}

/// `push a -x-`: a wish of which the second of three archives is spared.
fn push(tried: &mut Tried, step: Step<'_>) -> Result<bool> {
    let spared = marked(tried.alloc, step.how)?;
    tried.jobs.push(named(tried.alloc, step.name)?, &spared)?;
    Ok(true)
}

/// `original a`: the first wish is for it.
fn is_original(tried: &mut Tried, step: Step<'_>) -> Result<bool> {
    let named = named(tried.alloc, step.name)?;
    Ok(tried.jobs.original(0) == Some(&named))
}

/// `next xx-: (0, 1)`: whom to ask of the marked archives, for which wish; or `next xx-: none`.
fn is_next(tried: &mut Tried, step: Step<'_>) -> Result<bool> {
    let marked = marked(tried.alloc, step.name)?;
    match tried.jobs.next(&marked) {
        Some(ask) => is_told(tried.alloc, (ask.wish, ask.archive), step.wanted),
        None => Ok(step.wanted == "none"),
    }
}

/// `ask 0: true`: whether the first archive is to be asked for the first wish.
fn ask(tried: &mut Tried, step: Step<'_>) -> Result<bool> {
    let ask = Ask {
        wish: 0,
        archive: archive(step.name)?,
    };
    is_told(tried.alloc, tried.jobs.ask(ask), step.wanted)
}

/// `answer a copies 0: true`.
fn answer(tried: &mut Tried, step: Step<'_>) -> Result<bool> {
    let archive = archive(step.second)?;
    let answer = match step.how {
        "copies" => WishAnswer::Copies,
        _ => WishAnswer::NoCopies,
    };
    let original = named(tried.alloc, step.name)?;
    is_told(
        tried.alloc,
        tried.jobs.answer(&original, archive, answer),
        step.wanted,
    )
}

/// `skip 1`: the second archive isn't asked.
fn skip(tried: &mut Tried, step: Step<'_>) -> Result<bool> {
    tried.jobs.skip(archive(step.name)?);
    Ok(true)
}

/// `ended a: (false, true, true)`: a wish has ended, and whether it is found, whole and asked; or `ended none`.
fn has_ended(tried: &mut Tried, step: Step<'_>) -> Result<bool> {
    let Some(ended) = tried.jobs.take_ended() else {
        return Ok(step.name == "none");
    };
    let outcome = ended.outcome;
    let told = (outcome.is_found, outcome.is_whole, outcome.is_asked);
    Ok(ended.original == named(tried.alloc, step.name)? && is_told(tried.alloc, told, step.wanted)?)
}

/// Takes a step of a script; `len: 1` asks how many wishes there are.
fn take_step(tried: &mut Tried, line: &str) -> Result<bool> {
    let step = read_step(line);
    match step.verb {
        "push" => push(tried, step),
        "len" => is_told(tried.alloc, tried.jobs.len(), step.wanted),
        "original" => is_original(tried, step),
        "next" => is_next(tried, step),
        "ask" => ask(tried, step),
        "answer" => answer(tried, step),
        "skip" => skip(tried, step),
        "ended" => has_ended(tried, step),
        _ => bail!("there is no such step"),
    }
}

/// Follows a script from no wishes on.
fn play(alloc: Global, script: &str) -> Result<()> {
    let jobs = WishJobs::new(alloc);
    follow(&mut Tried { alloc, jobs }, script, take_step)
}

#[test]
fn each_archive_is_asked_unless_it_is_spared(rt: HostRuntime) -> Result<()> {
    let script = "push a -x-
len: 1
original a
next xxx: (0, 0)
ask 0: true
ask 0: false
next xxx: (0, 2)
next xx-: none
";
    play(rt.alloc(), script)
}

#[test]
fn a_wish_is_over_once_its_archives_have_answered(rt: HostRuntime) -> Result<()> {
    let script = "push a -x-
ask 0: true
ask 2: true
answer a none 0: true
ended none
answer a copies 2: true
ended a: (true, true, true)
len: 0
";
    play(rt.alloc(), script)
}

/// The second archive of the second wish is to be asked until it is skipped.
#[test]
fn what_asks_nobody_is_over_at_once(rt: HostRuntime) -> Result<()> {
    let script = "push a xx
ended a: (false, true, false)
push b x-
ended none
skip 1
ended b: (false, false, false)
";
    play(rt.alloc(), script)
}
