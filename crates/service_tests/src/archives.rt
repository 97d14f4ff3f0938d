//! Archives in memory, and what walks over them give, for the tests of walks.
use anyhow::{Result, bail};
use harvester::{Answer, Job, MemoryFetch, WalkFault, harvest_job, walk};
use memento_time::{Items, Octets};
use std::alloc::{AllocGlobal, Global};
use std::net::{Net, TcpListener, TcpStream};
use std::random::RandomSource;
use std::sync::Wait;
use std::time::Clock;
use text_tests::makers::{archive, clean, original};

pub(crate) const ALL: &str =
    "<http://arc.example/i>;rel=timemap,<http://arc.example/p1>;rel=timemap,<http://arc.example/p2>;rel=timemap";

pub(crate) fn answer(alloc: Global, status: u16, coding: &str, body: &str) -> Result<Answer> {
    let mut encoding = Vec::new(alloc);
    if !coding.is_empty() {
        encoding.push(Octets::from_slice(alloc, coding.as_bytes())?)?;
    }
    Ok(Answer {
        status,
        encoding: Items::of(encoding),
        retry_after: Items::of(Vec::new(alloc)),
        body: Octets::from_slice(alloc, body.as_bytes())?,
    })
}

pub(crate) fn job(alloc: Global, first: &str) -> Result<Job> {
    Ok(Job {
        archive: archive(b"arc.example")?,
        original: original(alloc, b"http://a.example/")?,
        revision: 7,
        first: clean(alloc, first.as_bytes())?,
    })
}

pub(crate) fn add(
    table: &mut MemoryFetch,
    alloc: Global,
    url: &str,
    status: u16,
    coding: &str,
    body: &str,
) -> Result<()> {
    table.add(
        clean(alloc, url.as_bytes())?,
        answer(alloc, status, coding, body)?,
    )?;
    Ok(())
}

/// Adds a page that lists all pages and a memento.
pub(crate) fn add_page(
    table: &mut MemoryFetch,
    alloc: Global,
    url: &str,
    status: u16,
    coding: &str,
    memento: &str,
) -> Result<()> {
    let body = format!(in alloc; "{ALL},{memento}")?;
    add(table, alloc, url, status, coding, &body)
}

pub(crate) const PAGES: &str =
    "<http://arc.example/p1>;rel=timemap,<http://arc.example/p2>;rel=timemap";

pub(crate) const MEMENTO_1: &str =
    "<http://m.example/1>;rel=memento;datetime=\"Sat, 01 Jan 2000 00:00:00 GMT\"";

pub(crate) const MEMENTO_2: &str =
    "<http://m.example/2>;rel=memento;datetime=\"Mon, 03 Jan 2000 00:00:00 GMT\"";

pub(crate) fn add_three_pages(
    table: &mut MemoryFetch,
    alloc: Global,
    first: u16,
    coding: &str,
    last: u16,
) -> Result<()> {
    add(table, alloc, "http://arc.example/i", first, "", PAGES)?;
    add_page(
        table,
        alloc,
        "http://arc.example/p1",
        200,
        coding,
        MEMENTO_1,
    )?;
    add_page(table, alloc, "http://arc.example/p2", last, "", MEMENTO_2)
}

/// An archive of three pages: the first lists the others, and these list all.
pub(crate) fn three_pages(
    alloc: Global,
    first: u16,
    coding: &str,
    last: u16,
) -> Result<MemoryFetch> {
    let mut table = MemoryFetch::new(alloc);
    add_three_pages(&mut table, alloc, first, coding, last)?;
    Ok(table)
}

/// How many mementos a walk from this URL harvests, or its fault, and how many pages it has fetched.
pub(crate) fn walk_counts<
    R: Wait + Clock + Net<Listener = TcpListener, Stream = TcpStream> + RandomSource + AllocGlobal,
>(rt: &R, table: &MemoryFetch, first: &str) -> Result<(Result<usize, WalkFault>, usize)> {
    let job = job(rt.alloc(), first)?;
    if !job.has_first_url() {
        bail!("no first URL");
    }
    let outcome = walk(rt, table, &job);
    let count = match &outcome.result {
        Ok(harvest) => Ok(harvest.mementos().len()),
        Err(fault) => Err(*fault),
    };
    Ok((count, outcome.fetched.as_slice().len()))
}

/// How many mementos a walk without a record harvests, whether they are a part, and what was asked for.
pub(crate) fn walk_unkept<
    R: Wait + Clock + Net<Listener = TcpListener, Stream = TcpStream> + RandomSource + AllocGlobal,
>(rt: &R, table: &MemoryFetch) -> Result<(Option<(usize, bool)>, Option<u64>)> {
    let job = job(rt.alloc(), "http://arc.example/i")?;
    if !job.has_first_url() {
        bail!("no first URL");
    }
    let walked = harvest_job(rt, table, &job, 784_111_777);
    let harvested = match &walked.result {
        Ok(harvest) => Some((harvest.mementos().len(), harvest.is_part())),
        Err(_) => None,
    };
    Ok((harvested, walked.asked))
}
