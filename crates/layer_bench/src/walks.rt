//! Walking over the pages of a TimeMap, and rounds of workers.
use crate::telling::tell;
use anyhow::{Context, Result, bail};
use harvester::{Answer, Fetch, FetchFault, Job, MemoryFetch, have_first_urls, run_round, walk};
use memento_time::{ArchiveName, Clean, Items, Octets, Original};
use std::alloc::{AllocGlobal, Global};
use std::net::{Net, TcpListener, TcpStream};
use std::random::RandomSource;
use std::sync::Wait;
use std::thread;
use std::thread::Threads;
use std::time::{Clock, Duration};
use timemap_reader::read_page;

const PAGES: u64 = 64;

const MEMENTOS: u64 = 1500;

fn url(alloc: Global, number: u64) -> Result<Clean> {
    let text = format!(in alloc; "http://arc.example/{number}")?;
    Ok(Clean::new(alloc, text.as_str().as_bytes())?)
}

fn job(alloc: Global, number: u64) -> Result<Job> {
    Ok(Job {
        archive: ArchiveName::new(b"arc.example").context("no name")?,
        original: Original::new(alloc, b"http://a.example/")?,
        revision: 1,
        first: url(alloc, number)?,
    })
}

fn answer_of(alloc: Global, body: Vec<u8>) -> Answer {
    Answer {
        status: 200,
        encoding: Items::of(Vec::new(alloc)),
        retry_after: Items::of(Vec::new(alloc)),
        body: Octets::of(body),
    }
}

/// The page of this number. Its mementos lie between those of the other pages.
fn page(alloc: Global, number: u64) -> Result<Vec<u8>> {
    let next = number.wrapping_add(1) % PAGES;
    let mut body = format!(in alloc; "<http://arc.example/{next}>; rel=\"timemap\"")?;
    for k in 0..MEMENTOS {
        let place = k.wrapping_mul(PAGES).wrapping_add(number);
        let hour = place / 3600 % 24;
        let minute = place / 60 % 60;
        let second = place % 60;
        let day = 1 + place / 86_400 % 28;
        body.push_str(&format!(in alloc;
            ",\n<http://m.example/{place}>; rel=\"memento\"; datetime=\"Sat, {day:02} Jan 2000 {hour:02}:{minute:02}:{second:02} GMT\""
        )?)?;
    }
    Ok(body.into_bytes())
}

fn pages(alloc: Global) -> Result<MemoryFetch> {
    let mut fetch = MemoryFetch::new(alloc);
    for number in 0..PAGES {
        fetch.add(url(alloc, number)?, answer_of(alloc, page(alloc, number)?))?;
    }
    Ok(fetch)
}

/// How many pages a walk fetches, and how many mementos it harvests.
fn walk_once<R>(rt: &R, table: &MemoryFetch) -> Result<[usize; 2]>
where
    R: Wait + Clock + Net<Listener = TcpListener, Stream = TcpStream> + RandomSource + AllocGlobal,
{
    let job = job(rt.alloc(), 0)?;
    if !job.has_first_url() {
        bail!("no first URL");
    }
    let outcome = walk(rt, table, &job);
    match &outcome.result {
        Ok(harvest) => Ok([outcome.fetched.as_slice().len(), harvest.mementos().len()]),
        Err(fault) => bail!("{fault}"),
    }
}

/// How many pages are fetched and read, with nothing more done with them, and how many mementos they have.
fn read_once<R>(rt: &R, table: &MemoryFetch) -> Result<[usize; 2]>
where
    R: Wait + Clock + Net<Listener = TcpListener, Stream = TcpStream> + RandomSource + AllocGlobal,
{
    let alloc: Global = rt.alloc();
    let mut counts = [0usize; 2];
    for number in 0..PAGES {
        let text = format!(in alloc; "http://arc.example/{number}")?;
        let answer = table.fetch(rt, &Clean::new(alloc, text.as_bytes())?)?;
        let page = read_page(alloc, text.as_str(), answer.body.as_slice())?;
        counts[0] = counts[0].saturating_add(1);
        counts[1] = counts[1].saturating_add(page.mementos.as_slice().len());
    }
    Ok(counts)
}

/// Walks over the pages `count` times, or fetches and reads them as often.
pub(crate) fn go_over<R>(rt: &R, count: u32, is_walk: bool) -> Result<()>
where
    R: Print
        + Wait
        + Clock
        + Net<Listener = TcpListener, Stream = TcpStream>
        + RandomSource
        + AllocGlobal,
{
    let table = pages(rt.alloc())?;
    for _ in 0..count {
        if is_walk {
            tell(rt, &walk_once(rt, &table)?)?;
        } else {
            tell(rt, &read_once(rt, &table)?)?;
        }
    }
    Ok(())
}

/// Answers each URL with an empty page after a millisecond.
#[derive(Drop)]
struct SlowFetch;

impl Fetch for SlowFetch {
    ghost use Rattle.std.specs.Prelude.{⊤};

    ghost answers = { λ _ _ _. ⊤ };

    ghost faults = { λ _ _ _. ⊥ };

    fn fetch<R>(&self, rt: &R, _url: &Clean) -> Result<Answer, FetchFault>
    where
        R: Wait
            + Clock
            + Net<Listener = TcpListener, Stream = TcpStream>
            + RandomSource
            + AllocGlobal,
    {
        thread::sleep(rt, Duration::from_millis(1));
        let alloc: Global = rt.alloc();
        Ok(answer_of(alloc, Vec::new(alloc)))
    }
}

/// A round of 1,000 jobs of one slow page each: how many harvests it gives.
pub(crate) fn round<R>(rt: &R, workers: usize) -> Result<usize>
where
    R: Threads
        + Sync
        + Wait
        + Clock
        + Net<Listener = TcpListener, Stream = TcpStream>
        + RandomSource
        + AllocGlobal,
{
    let alloc: Global = rt.alloc();
    let mut jobs = Vec::new(alloc);
    for number in 0..1000 {
        jobs.push(job(alloc, number)?)?;
    }
    if !have_first_urls(&jobs) || !(1..=64).contains(&workers) {
        bail!("1 to 64 workers");
    }
    let outcomes = run_round(rt, &SlowFetch, &jobs, workers)?;
    let mut harvests = 0usize;
    for outcome in &outcomes {
        if outcome.result.is_ok() {
            harvests = harvests.saturating_add(1);
        }
    }
    Ok(harvests)
}
