//! A walk over three pages of a TimeMap, of which a fourth is lost, and rounds of such walks.
use anyhow::{Context, Result, bail};
use harvester::{
    Answer, Fetch, Job, MAX_WORKERS, MemoryFetch, Outcome, WalkFault, have_first_urls, run_round,
    walk,
};
use memento_time::{ArchiveName, Clean, Items, Octets, Original};
use refused_calls::{Change, Tried};
use std::alloc::{AllocGlobal, Global};
use std::io::Write;
use std::net::{Net, TcpListener, TcpStream};
use std::random::RandomSource;
use std::sync::Wait;
use std::thread::Threads;
use std::time::Clock;

/// An archive, and what is asked of it.
#[derive(Drop)]
pub(crate) struct Archive {
    fetch: MemoryFetch,
    job: Job,
    /// Of a round: from the first page, from the last one, and from one that isn't there.
    jobs: Vec<Job>,
}

/// An archive whose first page lists three further ones, the last of which doesn't answer.
pub(crate) fn make_archive(alloc: Global) -> Result<Archive> {
    Ok(Archive {
        fetch: fetch(alloc)?,
        job: job(alloc, b"http://arc.example/i#top")?,
        jobs: jobs(alloc)?,
    })
}

/// The pages by their URLs.
const PAGES: [(&[u8], &[u8]); 3] = [
    (
        b"http://arc.example/i",
        b"</p1>;rel=timemap,</p2>;rel=timemap,</p3>;rel=timemap",
    ),
    (
        b"http://arc.example/p1",
        b"</2>;rel=memento;datetime=\"Mon, 03 Jan 2000 00:00:00 GMT\"",
    ),
    (
        b"http://arc.example/p2",
        b"</1>;rel=memento;datetime=\"Sat, 01 Jan 2000 00:00:00 GMT\",</p1>;rel=timemap",
    ),
];

fn fetch(alloc: Global) -> Result<MemoryFetch> {
    let mut fetch = MemoryFetch::new(alloc);
    for (url, body) in PAGES {
        add(&mut fetch, alloc, url, body)?;
    }
    Ok(fetch)
}

const FIRST_URLS: [&[u8]; 3] = [
    b"http://arc.example/i",
    b"http://arc.example/p2",
    b"http://arc.example/other",
];

fn jobs(alloc: Global) -> Result<Vec<Job>> {
    let mut jobs = Vec::new(alloc);
    for first in FIRST_URLS {
        jobs.push(job(alloc, first)?)?;
    }
    Ok(jobs)
}

fn job(alloc: Global, first: &[u8]) -> Result<Job> {
    Ok(Job {
        archive: ArchiveName::new(b"arc.example").context("no name")?,
        original: Original::new(alloc, b"http://a.example/")?,
        revision: 1,
        first: Clean::new(alloc, first)?,
    })
}

/// An answer with this body, of which it is said that it isn't coded.
fn answer(alloc: Global, body: &[u8]) -> Result<Answer> {
    let identity = Octets::from_slice(alloc, b"identity")?;
    Ok(Answer {
        status: 200,
        encoding: Items::of(vec![in alloc; identity]?),
        retry_after: Items::of(Vec::new(alloc)),
        body: Octets::from_slice(alloc, body)?,
    })
}

fn add(fetch: &mut MemoryFetch, alloc: Global, url: &[u8], body: &[u8]) -> Result<()> {
    fetch.add(Clean::new(alloc, url)?, answer(alloc, body)?)?;
    Ok(())
}

/// Whether one list is where the other begins.
fn is_beginning<T: PartialEq>(front: &[T], whole: &[T]) -> bool {
    front.len() <= whole.len() && front.iter().zip(whole).all(|(one, other)| one == other)
}

/// Whether the walk that was refused memory fetched and lost the same up to there.
fn is_same_walk(refused: &Outcome<'_>, whole: &Outcome<'_>) -> bool {
    is_beginning(refused.fetched.as_slice(), whole.fetched.as_slice())
        && is_beginning(refused.lost.as_slice(), whole.lost.as_slice())
}

pub(crate) fn print_outcome(rt: &HostRuntime, outcome: &Outcome<'_>) -> Result<()> {
    for entry in outcome.fetched.as_slice() {
        print!(rt; "fetched ")?;
        rt.stdout().write_all(entry.0.as_bytes())?;
        println!(rt; "")?;
    }
    for (url, fault) in outcome.lost.as_slice() {
        print!(rt; "lost ")?;
        rt.stdout().write_all(url.as_bytes())?;
        println!(rt; " {fault}")?;
    }
    match &outcome.result {
        Ok(harvest) => {
            println!(rt; "part {}", harvest.is_part())?;
            for memento in harvest.mementos() {
                let second = memento.at.secs();
                print!(rt; "memento {second} ")?;
                rt.stdout().write_all(memento.uri.as_bytes())?;
                println!(rt; "")?;
            }
        }
        Err(fault) => println!(rt; "fault {fault}")?,
    }
    Ok(())
}

/// Walks, a second time where memory is refused.
pub(crate) fn insist<'a, R>(rt: &R, archive: &'a Archive) -> Result<Outcome<'a>>
where
    R: Wait + Clock + Net<Listener = TcpListener, Stream = TcpStream> + RandomSource + AllocGlobal,
{
    if !archive.job.has_first_url() {
        bail!("no first URL");
    }
    let outcome = walk(rt, &archive.fetch, &archive.job);
    if !matches!(outcome.result, Err(WalkFault::NoMemory)) {
        return Ok(outcome);
    }
    let again = walk(rt, &archive.fetch, &archive.job);
    if !is_same_walk(&outcome, &again) {
        bail!("a refused walk fetched something else");
    }
    Ok(again)
}

/// Whether a walk of the round, or the round, was refused memory.
fn is_refused(outcomes: &[Outcome<'_>]) -> bool {
    outcomes.iter().any(|outcome| matches!(outcome.result, Err(WalkFault::NoMemory)))
}

/// Walks all jobs by so many workers, a second time where memory is refused.
pub(crate) fn insist_round<'a, R>(
    rt: &R,
    archive: &'a Archive,
    workers: usize,
) -> Result<Vec<Outcome<'a>>>
where
    R: Threads
        + Sync
        + Wait
        + Clock
        + Net<Listener = TcpListener, Stream = TcpStream>
        + RandomSource
        + AllocGlobal,
{
    if !have_first_urls(&archive.jobs) || workers == 0 || workers > MAX_WORKERS {
        bail!("no round");
    }
    let Ok(outcomes) = run_round(rt, &archive.fetch, &archive.jobs, workers) else {
        return Ok(run_round(rt, &archive.fetch, &archive.jobs, workers)?);
    };
    if !is_refused(&outcomes) {
        return Ok(outcomes);
    }
    let again = run_round(rt, &archive.fetch, &archive.jobs, workers)?;
    if !outcomes
        .iter()
        .zip(&again)
        .all(|(refused, whole)| is_same_walk(refused, whole))
    {
        bail!("a refused round fetched something else");
    }
    Ok(again)
}

/// The call that adds a page to what is answered.
#[derive(Clone, Copy, Debug)]
pub(crate) enum Adding {
    MemoryFetchAdd,
}

/// Adds a page, once more where memory is refused and nothing is answered.
pub(crate) fn try_add<R>(rt: &R) -> Option<Tried>
where
    R: Wait + Clock + Net<Listener = TcpListener, Stream = TcpStream> + RandomSource + AllocGlobal,
{
    let alloc = rt.alloc();
    let url = Clean::new(alloc, b"http://arc.example/i").ok()?;
    let mut fetch = MemoryFetch::new(alloc);
    if add(&mut fetch, alloc, b"http://arc.example/i", b"x").is_ok() {
        return Some(Tried::Answered);
    }
    let is_as_before = fetch.fetch(rt, &url).is_err();
    let is_repeated = add(&mut fetch, alloc, b"http://arc.example/i", b"x").is_ok();
    Some(Tried::of_change(Change {
        is_answered: false,
        is_as_before,
        is_repeated,
    }))
}
