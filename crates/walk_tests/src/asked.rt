//! Walks over archives in memory, whose calls are counted.
use anyhow::{Result, bail};
use harvester::{Answer, Fetch, FetchFault, Job, MemoryFetch, Outcome, WalkFault, walk};
use memento_time::{Clean, Items, Octets};
use std::alloc::{AllocGlobal, Global};
use std::net::{Net, TcpListener, TcpStream};
use std::random::RandomSource;
use std::sync::Wait;
use std::sync::atomic::{AtomicU64, Ordering};
use std::time::Clock;
use text_tests::makers::{archive, clean, original};

/// An archive in memory. It counts how often it was asked for a URL, and had an answer or none.
#[derive(Drop)]
struct CountingFetch {
    pages: MemoryFetch,
    answered: AtomicU64,
    failed: AtomicU64,
}

impl CountingFetch {
    fn new(pages: MemoryFetch) -> CountingFetch {
        CountingFetch {
            pages,
            answered: AtomicU64::new(0),
            failed: AtomicU64::new(0),
        }
    }

    fn answered(&self) -> u64 {
        self.answered.load(Ordering::SeqCst)
    }

    fn failed(&self) -> u64 {
        self.failed.load(Ordering::SeqCst)
    }
}

impl Fetch for CountingFetch {
    ghost use Rattle.std.specs.Prelude.{⊤};

    ghost answers = { λ _ _ _. ⊤ };

    ghost faults = { λ _ _ _. ⊤ };

    fn fetch<R>(&self, rt: &R, url: &Clean) -> Result<Answer, FetchFault>
    where
        R: Wait
            + Clock
            + Net<Listener = TcpListener, Stream = TcpStream>
            + RandomSource
            + AllocGlobal,
    {
        let result = self.pages.fetch(rt, url);
        let count = match &result {
            Ok(_) => &self.answered,
            Err(_) => &self.failed,
        };
        count.fetch_add(1, Ordering::SeqCst);
        result
    }
}

/// A page of this status that lists all pages of the archive.
fn add_page(
    pages: &mut MemoryFetch,
    alloc: Global,
    url: &[u8],
    status: u16,
    body: &[u8],
) -> Result<()> {
    let answer = Answer {
        status,
        encoding: Items::of(Vec::new(alloc)),
        retry_after: Items::of(Vec::new(alloc)),
        body: Octets::from_slice(alloc, body)?,
    };
    pages.add(clean(alloc, url)?, answer)?;
    Ok(())
}

const ALL: &[u8] =
    b"<http://arc.example/i>;rel=timemap,<http://arc.example/p1>;rel=timemap,<http://arc.example/p1#a>;rel=timemap,<http://arc.example/p2>;rel=timemap,<http://arc.example/p3>;rel=timemap";

/// Three pages that list all four, of which the last doesn't answer.
fn four_pages(alloc: Global, second: u16) -> Result<MemoryFetch> {
    let mut pages = MemoryFetch::new(alloc);
    add_page(&mut pages, alloc, b"http://arc.example/i", 200, ALL)?;
    add_page(&mut pages, alloc, b"http://arc.example/p1", second, ALL)?;
    add_page(&mut pages, alloc, b"http://arc.example/p2", 200, ALL)?;
    Ok(pages)
}

fn job(alloc: Global) -> Result<Job> {
    Ok(Job {
        archive: archive(b"arc.example")?,
        original: original(alloc, b"http://a.example/")?,
        revision: 7,
        first: clean(alloc, b"http://arc.example/i")?,
    })
}

/// How many URLs are lost because no answer came.
fn unanswered(outcome: &Outcome<'_>) -> usize {
    let lost = outcome.lost.as_slice();
    lost.iter()
        .filter(|loss| matches!(loss.1, WalkFault::Fetch(_)))
        .count()
}

/// How many answers and how many failures a walk gets, and how many of each it tells.
fn counts_of<R>(rt: &R, fetch: &CountingFetch) -> Result<((u64, u64), (usize, usize))>
where
    R: Wait + Clock + Net<Listener = TcpListener, Stream = TcpStream> + RandomSource + AllocGlobal,
{
    let job = job(rt.alloc())?;
    if !job.has_first_url() {
        bail!("no first URL");
    }
    let outcome = walk(rt, fetch, &job);
    let told = (outcome.fetched.as_slice().len(), unanswered(&outcome));
    Ok(((fetch.answered(), fetch.failed()), told))
}

/// Pages that list each other, and one that doesn't answer, are asked for once each, and what they said is kept.
#[test]
fn asks_once(rt: HostRuntime) -> Result<()> {
    let fetch = CountingFetch::new(four_pages(rt.alloc(), 200)?);
    assert_eq!(rt; counts_of(&rt, &fetch)?, ((3, 1), (3, 1)));
    Ok(())
}

/// So is a page that says 500.
#[test]
fn keeps_bad_answers(rt: HostRuntime) -> Result<()> {
    let fetch = CountingFetch::new(four_pages(rt.alloc(), 500)?);
    assert_eq!(rt; counts_of(&rt, &fetch)?, ((3, 1), (3, 1)));
    Ok(())
}

/// An archive that doesn't answer is asked once.
#[test]
fn a_silent_archive_is_asked_once(rt: HostRuntime) -> Result<()> {
    let fetch = CountingFetch::new(MemoryFetch::new(rt.alloc()));
    assert_eq!(rt; counts_of(&rt, &fetch)?, ((0, 1), (0, 0)));
    Ok(())
}
