//! Walks over what another aggregator answers of a long list: an index, and its pages.
use anyhow::{Result, bail};
use harvester::{Answer, Job, MemoryFetch, walk};
use knowledge_tests::makers::{get, harvest};
use memento_index::Merge;
use memento_time::{Items, Memento};
use replica_exchange::Stamped;
use std::alloc::{AllocGlobal, Global};
use std::net::{Net, TcpListener, TcpStream};
use std::random::RandomSource;
use std::sync::Wait;
use std::test::*;
use std::time::Clock;
use text_tests::makers::{archive, clean, numbered, original, service};
use timegate::answer;
use timemap_writer::pages;

const ROOT: &[u8] = b"http://a.example/";

/// A replica that knows so many mementos.
fn replica_of(alloc: Global, count: u32) -> Result<Stamped> {
    let mut stamped = Stamped::new(alloc, 1);
    let mementos = numbered(alloc, count)?;
    let harvest = harvest(alloc, b"arc.example", ROOT, 7, mementos)?;
    stamped.absorb(&Merge::Harvest(harvest))?;
    Ok(stamped)
}

/// Adds what the replica answers at this target of `http://agg.example`.
fn add(table: &mut MemoryFetch, alloc: Global, replica: &Stamped, target: &str) -> Result<()> {
    let reply = answer(
        alloc,
        &service(alloc)?,
        replica,
        &get(alloc, target.as_bytes())?,
    )?;
    let url = format!(in alloc; "http://agg.example{target}")?;
    let answer = Answer {
        status: reply.status,
        encoding: Items::of(Vec::new(alloc)),
        retry_after: Items::of(Vec::new(alloc)),
        body: reply.body,
    };
    table.add(clean(alloc, url.as_bytes())?, answer)?;
    Ok(())
}

/// What a replica that knows so many answers: its TimeMap, and so many pages.
fn answers(alloc: Global, count: u32, pages: usize) -> Result<MemoryFetch> {
    let replica = replica_of(alloc, count)?;
    let mut table = MemoryFetch::new(alloc);
    add(
        &mut table,
        alloc,
        &replica,
        "/timemap/link/http://a.example/",
    )?;
    for page in 1..=pages {
        let target = format!(in alloc; "/timemap/link/page/{page}/http://a.example/")?;
        add(&mut table, alloc, &replica, &target)?;
    }
    Ok(table)
}

fn job(alloc: Global) -> Result<Job> {
    Ok(Job {
        archive: archive(b"agg.example")?,
        original: original(alloc, ROOT)?,
        revision: 1,
        first: clean(alloc, b"http://agg.example/timemap/link/http://a.example/")?,
    })
}

/// Whether a walk harvests the whole of just these mementos, and fetches so many pages.
fn walk_harvests<
    R: Wait + Clock + Net<Listener = TcpListener, Stream = TcpStream> + RandomSource + AllocGlobal,
>(rt: &R, table: &MemoryFetch, mementos: &[Memento], fetched: usize) -> Result<bool> {
    let job = job(rt.alloc())?;
    if !job.has_first_url() {
        bail!("no first URL");
    }
    let outcome = walk(rt, table, &job);
    Ok(match &outcome.result {
        Ok(harvest) => {
            harvest.mementos() == mementos
                && !harvest.is_part()
                && outcome.fetched.as_slice().len() == fetched
        }
        Err(_) => false,
    })
}

#[test]
fn walks_over_an_index(rt: HostRuntime) -> Result<()> {
    for (count, fetched) in [(1_000, 1), (1_001, 3), (2_000, 3), (100_000, 101)] {
        let mementos = numbered(rt.alloc(), count)?;
        let table = answers(rt.alloc(), count, pages(&mementos))?;
        assert!(rt; walk_harvests(&rt, &table, &mementos, fetched)?, "{count}");
    }
    Ok(())
}
