//! Rounds over an archive in memory, which answers only while two walks go on at once.
use anyhow::{Result, bail};
use harvester::{Answer, Fetch, FetchFault, Job, MemoryFetch, have_first_urls, run_round};
use memento_time::{Clean, Items, Octets};
use std::alloc::{AllocGlobal, Global};
use std::net::{Net, TcpListener, TcpStream};
use std::random::RandomSource;
use std::sync::Wait;
use std::sync::atomic::{AtomicU64, Ordering};
use std::thread::{self, Threads};
use std::time::{Clock, Duration};
use text_tests::makers::{archive, clean, original};

/// An archive in memory that gives no answer before it was asked twice.
#[derive(Drop)]
struct MeetingFetch {
    pages: MemoryFetch,
    asked: AtomicU64,
}

impl Fetch for MeetingFetch {
    ghost use Rattle.std.specs.Prelude.{⊤};

    ghost answers = { λ _ _ _. ⊤ };

    ghost faults = { λ _ _ _. ⊤ };

    fn fetch<R>(&self, rt: &R, url: &Clean) -> Result<Answer, FetchFault>
    where
        R: Wait
            + Clock
            + Net<Listener = TcpListener, Stream = TcpStream>
            + RandomSource
            + AllocGlobal,
    {
        self.asked.fetch_add(1, Ordering::SeqCst);
        if !are_two(rt, &self.asked) {
            return Err(FetchFault::Failed);
        }
        self.pages.fetch(rt, url)
    }
}

/// Sleeps until there are two, for at most a minute, and says whether there were.
fn are_two<R: Clock>(rt: &R, asked: &AtomicU64) -> bool {
    for _ in 0..6_000 {
        if asked.load(Ordering::SeqCst) >= 2 {
            return true;
        }
        thread::sleep(rt, Duration::from_millis(10));
    }
    false
}

/// A page without links.
fn add_page(pages: &mut MemoryFetch, alloc: Global, url: &[u8]) -> Result<()> {
    let answer = Answer {
        status: 200,
        encoding: Items::of(Vec::new(alloc)),
        retry_after: Items::of(Vec::new(alloc)),
        body: Octets::from_slice(alloc, b"")?,
    };
    pages.add(clean(alloc, url)?, answer)?;
    Ok(())
}

fn two_pages(alloc: Global) -> Result<MeetingFetch> {
    let mut pages = MemoryFetch::new(alloc);
    add_page(&mut pages, alloc, b"http://arc.example/1")?;
    add_page(&mut pages, alloc, b"http://arc.example/2")?;
    Ok(MeetingFetch {
        pages,
        asked: AtomicU64::new(0),
    })
}

fn job(alloc: Global, first: &[u8]) -> Result<Job> {
    Ok(Job {
        archive: archive(b"arc.example")?,
        original: original(alloc, b"http://a.example/")?,
        revision: 7,
        first: clean(alloc, first)?,
    })
}

fn two_jobs(alloc: Global) -> Result<Vec<Job>> {
    let mut jobs = Vec::new(alloc);
    jobs.push(job(alloc, b"http://arc.example/1")?)?;
    jobs.push(job(alloc, b"http://arc.example/2")?)?;
    Ok(jobs)
}

/// How many harvests a round of both jobs gives, with two workers.
fn harvests<R>(rt: &R, fetch: &MeetingFetch) -> Result<usize>
where
    R: Wait
        + Clock
        + Net<Listener = TcpListener, Stream = TcpStream>
        + RandomSource
        + AllocGlobal
        + Threads
        + Sync,
{
    let jobs = two_jobs(rt.alloc())?;
    if !have_first_urls(&jobs) {
        bail!("no first URLs");
    }
    let outcomes = run_round(rt, fetch, &jobs, 2)?;
    Ok(outcomes.iter().filter(|it| it.result.is_ok()).count())
}

/// Two workers walk at once: neither walk has its answer before the other asks.
#[test]
fn walks_meet(rt: HostRuntime) -> Result<()> {
    let fetch = two_pages(rt.alloc())?;
    assert_eq!(rt; harvests(&rt, &fetch)?, 2);
    Ok(())
}
