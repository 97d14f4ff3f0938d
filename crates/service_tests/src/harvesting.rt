//! Walks over archives in memory: which pages are fetched and in which order, which are lost, and where a walk ends.
use crate::archives::{
    MEMENTO_2, PAGES, add, add_page, job, three_pages, walk_counts, walk_unkept,
};
use anyhow::{Result, bail};
use harvester::{
    FetchFault, Job, MAX_WORKERS, MemoryFetch, Outcome, WalkFault, have_first_urls, run_round, walk,
};
use std::alloc::{AllocGlobal, Global};
use std::net::{Net, TcpListener, TcpStream};
use std::random::RandomSource;
use std::sync::Wait;
use std::thread::Threads;
use std::time::Clock;

/// Whether these URLs were answered, in this order.
fn has_fetched(outcome: &Outcome<'_>, urls: &[&str]) -> bool {
    let record = outcome.fetched.as_slice();
    record.len() == urls.len()
        && record
            .iter()
            .zip(urls)
            .all(|(entry, url)| entry.0.as_bytes() == url.as_bytes())
}

/// Whether these URLs are lost by these faults, in this order.
fn has_lost(outcome: &Outcome<'_>, lost: &[(&str, WalkFault)]) -> bool {
    let losses = outcome.lost.as_slice();
    losses.len() == lost.len()
        && losses.iter().zip(lost).all(|(loss, (url, fault))| loss.0.as_bytes() == url.as_bytes()
            && loss.1 == *fault)
}

/// Whether the harvest is whole.
fn is_whole(outcome: &Outcome<'_>) -> bool {
    match &outcome.result {
        Ok(harvest) => !harvest.is_part(),
        Err(_) => false,
    }
}

/// Whether the harvest has just these mementos.
fn has_harvested(outcome: &Outcome<'_>, uris: &[&str]) -> bool {
    match &outcome.result {
        Ok(harvest) => {
            let mementos = harvest.mementos();
            mementos.len() == uris.len()
                && mementos
                    .iter()
                    .zip(uris)
                    .all(|(m, uri)| m.uri.as_bytes() == uri.as_bytes())
        }
        Err(_) => false,
    }
}

fn fault(outcome: &Outcome<'_>) -> Option<WalkFault> {
    match &outcome.result {
        Ok(_) => None,
        Err(fault) => Some(*fault),
    }
}

/// Whether a walk from this URL fetches just these pages, in this order, and harvests just these mementos, with nothing
/// lost.
fn walk_harvests<
    R: Wait + Clock + Net<Listener = TcpListener, Stream = TcpStream> + RandomSource + AllocGlobal,
>(rt: &R, table: &MemoryFetch, first: &str, urls: &[&str], uris: &[&str]) -> Result<bool> {
    let job = job(rt.alloc(), first)?;
    if !job.has_first_url() {
        bail!("no first URL");
    }
    let outcome = walk(rt, table, &job);
    let is_as_said = outcome.number == 0
        && has_fetched(&outcome, urls)
        && has_lost(&outcome, &[])
        && is_whole(&outcome)
        && has_harvested(&outcome, uris);
    Ok(is_as_said)
}

/// Whether a walk from the index fetches just these pages, in this order, loses just these, in this order, and gives a
/// part harvest of just these mementos.
fn walk_loses<
    R: Wait + Clock + Net<Listener = TcpListener, Stream = TcpStream> + RandomSource + AllocGlobal,
>(
    rt: &R,
    table: &MemoryFetch,
    urls: &[&str],
    lost: &[(&str, WalkFault)],
    uris: &[&str],
) -> Result<bool> {
    let job = job(rt.alloc(), "http://arc.example/i")?;
    if !job.has_first_url() {
        bail!("no first URL");
    }
    let outcome = walk(rt, table, &job);
    let is_as_said = has_fetched(&outcome, urls)
        && has_lost(&outcome, lost)
        && !is_whole(&outcome)
        && has_harvested(&outcome, uris);
    Ok(is_as_said)
}

const FROM_THE_INDEX: [&str; 3] = [
    "http://arc.example/i",
    "http://arc.example/p1",
    "http://arc.example/p2",
];

const FROM_THE_LAST_PAGE: [&str; 3] = [
    "http://arc.example/p2",
    "http://arc.example/i",
    "http://arc.example/p1",
];

const BOTH_MEMENTOS: [&str; 2] = ["http://m.example/1", "http://m.example/2"];

#[test]
fn pages_in_order(rt: HostRuntime) -> Result<()> {
    let table = three_pages(rt.alloc(), 200, "Identity", 200)?;
    let first = "http://arc.example/i#top";
    assert!(rt; walk_harvests(&rt, &table, first, &FROM_THE_INDEX, &BOTH_MEMENTOS)?);
    Ok(())
}

#[test]
fn an_archive_without_the_original(rt: HostRuntime) -> Result<()> {
    let table = three_pages(rt.alloc(), 404, "", 200)?;
    let first = "http://arc.example/i";
    assert!(rt; walk_harvests(&rt, &table, first, &[first], &[])?);
    Ok(())
}

#[test]
fn the_first_page_fails(rt: HostRuntime) -> Result<()> {
    let index = "http://arc.example/i";
    let other = "http://arc.example/other";
    let p1 = "http://arc.example/p1";
    let cases = [
        (500, "", index, WalkFault::Status(500), 1),
        (200, "gzip", p1, WalkFault::Encoded, 1),
        (200, "", other, WalkFault::Fetch(FetchFault::Failed), 0),
    ];
    for (status, coding, first, fault, fetched) in cases {
        let table = three_pages(rt.alloc(), status, coding, 200)?;
        let counts = walk_counts(&rt, &table, first)?;
        assert!(rt; counts == (Err(fault), fetched), "{status} at {first}");
    }
    Ok(())
}

#[test]
fn a_lost_page(rt: HostRuntime) -> Result<()> {
    let missing = three_pages(rt.alloc(), 200, "", 404)?;
    let lost = [("http://arc.example/p2", WalkFault::Status(404))];
    assert!(rt; walk_loses(&rt, &missing, &FROM_THE_INDEX, &lost, &BOTH_MEMENTOS[..1])?);
    Ok(())
}

#[test]
fn a_lost_page_that_is_coded(rt: HostRuntime) -> Result<()> {
    let coded = three_pages(rt.alloc(), 200, "gzip", 200)?;
    let lost = [("http://arc.example/p1", WalkFault::Encoded)];
    assert!(rt; walk_loses(&rt, &coded, &FROM_THE_INDEX, &lost, &BOTH_MEMENTOS[1..])?);
    Ok(())
}

#[test]
fn both_pages_lost(rt: HostRuntime) -> Result<()> {
    let table = three_pages(rt.alloc(), 200, "gzip", 404)?;
    let lost = [
        ("http://arc.example/p1", WalkFault::Encoded),
        ("http://arc.example/p2", WalkFault::Status(404)),
    ];
    assert!(rt; walk_loses(&rt, &table, &FROM_THE_INDEX, &lost, &[])?);
    Ok(())
}

/// An archive whose first page lists two, of which only the last answers. That page lists all.
fn silent_page(alloc: Global) -> Result<MemoryFetch> {
    let mut table = MemoryFetch::new(alloc);
    add(&mut table, alloc, "http://arc.example/i", 200, "", PAGES)?;
    add_page(
        &mut table,
        alloc,
        "http://arc.example/p2",
        200,
        "",
        MEMENTO_2,
    )?;
    Ok(table)
}

#[test]
fn a_page_without_an_answer(rt: HostRuntime) -> Result<()> {
    let table = silent_page(rt.alloc())?;
    let fetched = ["http://arc.example/i", "http://arc.example/p2"];
    let lost = [(
        "http://arc.example/p1",
        WalkFault::Fetch(FetchFault::Failed),
    )];
    assert!(rt; walk_loses(&rt, &table, &fetched, &lost, &BOTH_MEMENTOS[1..])?);
    Ok(())
}

#[test]
fn printed_faults(rt: HostRuntime) -> Result<()> {
    for (fault, printed) in [
        (WalkFault::Status(503), "status 503"),
        (WalkFault::Fetch(FetchFault::Failed), "no answer"),
    ] {
        assert!(rt;
            fault.to_string(rt.alloc())?.as_str() == printed,
            "{printed}"
        );
    }
    Ok(())
}

fn push_jobs(jobs: &mut Vec<Job>, alloc: Global, firsts: &[&str]) -> Result<()> {
    for first in firsts {
        jobs.push(job(alloc, first)?)?;
    }
    Ok(())
}

/// A job for each of these first URLs.
fn jobs(alloc: Global, firsts: &[&str]) -> Result<Vec<Job>> {
    let mut jobs = Vec::new(alloc);
    push_jobs(&mut jobs, alloc, firsts)?;
    Ok(jobs)
}

/// What a round of these jobs gives.
fn round<'a, R>(
    rt: &R,
    table: &MemoryFetch,
    jobs: &'a [Job],
    workers: usize,
) -> Result<Vec<Outcome<'a>>>
where
    R: Wait
        + Clock
        + Net<Listener = TcpListener, Stream = TcpStream>
        + RandomSource
        + AllocGlobal
        + Threads
        + Sync,
{
    if workers == 0 || workers > MAX_WORKERS || !have_first_urls(jobs) {
        bail!("no round");
    }
    Ok(run_round(rt, table, jobs, workers)?)
}

fn are_numbered(outcomes: &[Outcome<'_>]) -> bool {
    outcomes
        .iter()
        .enumerate()
        .all(|(k, outcome)| outcome.number == k)
}

/// Whether these are the outcomes of walks from the index, from the last page and from a URL that fails.
fn are_of_three_jobs(outcomes: &[Outcome<'_>]) -> bool {
    match outcomes {
        [index, last, other] => {
            has_fetched(index, &FROM_THE_INDEX)
                && has_harvested(index, &BOTH_MEMENTOS)
                && has_fetched(last, &FROM_THE_LAST_PAGE)
                && has_harvested(last, &BOTH_MEMENTOS)
                && fault(other) == Some(WalkFault::Fetch(FetchFault::Failed))
        }
        _ => false,
    }
}

#[test]
fn rounds(rt: HostRuntime) -> Result<()> {
    let table = three_pages(rt.alloc(), 200, "", 200)?;
    let firsts = [
        "http://arc.example/i",
        "http://arc.example/p2",
        "http://arc.example/other",
    ];
    let jobs = jobs(rt.alloc(), &firsts)?;
    for workers in [1, 2, 3, 64] {
        let outcomes = round(&rt, &table, &jobs, workers)?;
        assert!(rt; are_of_three_jobs(&outcomes) && are_numbered(&outcomes));
    }
    Ok(())
}

#[test]
fn walks_without_a_record(rt: HostRuntime) -> Result<()> {
    for (first, last, harvested) in [
        (200, 200, Some((2, false))),
        (200, 500, Some((1, true))),
        (500, 200, None),
    ] {
        let table = three_pages(rt.alloc(), first, "", last)?;
        assert!(rt;
            walk_unkept(&rt, &table)? == (harvested, None),
            "{first} {last}"
        );
    }
    Ok(())
}
