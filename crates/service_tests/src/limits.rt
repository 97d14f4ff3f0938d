//! How many pages a walk fetches at most, and how many mementos it harvests.
use crate::archives::{add, walk_counts};
use anyhow::Result;
use harvester::{MAX_PAGES, MemoryFetch, WalkFault};
use std::alloc::Global;

/// The body of a page that lists the next, or of the last, which lists none.
fn body_of(alloc: Global, page: u64, pages: u64) -> Result<String> {
    if page >= pages {
        return Ok(String::new(alloc));
    }
    let next = page.saturating_add(1);
    Ok(format!(in alloc; "<http://arc.example/{next}>;rel=timemap")?)
}

fn add_link(table: &mut MemoryFetch, alloc: Global, page: u64, pages: u64) -> Result<()> {
    let url = format!(in alloc; "http://arc.example/{page}")?;
    let body = body_of(alloc, page, pages)?;
    add(table, alloc, &url, 200, "", &body)
}

/// Each page lists the next, and the last lists none.
fn chain(alloc: Global, pages: u64) -> Result<MemoryFetch> {
    let mut table = MemoryFetch::new(alloc);
    for page in 1..=pages {
        add_link(&mut table, alloc, page, pages)?;
    }
    Ok(table)
}

#[test]
fn chains(rt: HostRuntime) -> Result<()> {
    for (pages, count) in [(128, Ok(0)), (129, Err(WalkFault::TooManyPages))] {
        let table = chain(rt.alloc(), pages)?;
        let counts = walk_counts(&rt, &table, "http://arc.example/1")?;
        assert!(rt; counts == (count, MAX_PAGES), "{pages}");
    }
    Ok(())
}

/// A chain of 127 pages, the first of which also lists a page that doesn't answer, and the last of which lists one more
/// where it is told to.
fn chain_with_a_silent_page(alloc: Global, last: &str) -> Result<MemoryFetch> {
    let mut table = MemoryFetch::new(alloc);
    let first = "<http://arc.example/2>;rel=timemap,<http://arc.example/silent>;rel=timemap";
    add(&mut table, alloc, "http://arc.example/1", 200, "", first)?;
    for page in 2..127 {
        add_link(&mut table, alloc, page, 127)?;
    }
    add(&mut table, alloc, "http://arc.example/127", 200, "", last)?;
    Ok(table)
}

#[test]
fn lost_pages_count(rt: HostRuntime) -> Result<()> {
    let more = "<http://arc.example/128>;rel=timemap";
    for (last, count) in [("", Ok(0)), (more, Err(WalkFault::TooManyPages))] {
        let table = chain_with_a_silent_page(rt.alloc(), last)?;
        let counts = walk_counts(&rt, &table, "http://arc.example/1")?;
        assert!(rt; counts == (count, 127), "{last}");
    }
    Ok(())
}

fn push_pages(body: &mut String, alloc: Global, pages: u64) -> Result<()> {
    for page in 1..=pages {
        body.push_str(&format!(in alloc; ",<http://arc.example/{page}>;rel=timemap")?)?;
    }
    Ok(())
}

/// A page that lists itself and 128 others.
fn page_of_many(alloc: Global) -> Result<MemoryFetch> {
    let mut body = String::from_str(alloc, "<http://arc.example/0>;rel=timemap")?;
    push_pages(&mut body, alloc, 128)?;
    let mut table = MemoryFetch::new(alloc);
    add(&mut table, alloc, "http://arc.example/0", 200, "", &body)?;
    Ok(table)
}

#[test]
fn a_page_of_too_many_pages(rt: HostRuntime) -> Result<()> {
    let counts = walk_counts(&rt, &page_of_many(rt.alloc())?, "http://arc.example/0")?;
    assert!(rt; counts == (Err(WalkFault::TooManyPages), 1));
    Ok(())
}

/// A page of so many mementos of one second.
fn page_of_mementos(alloc: Global, count: u64) -> Result<MemoryFetch> {
    let mut body = String::new(alloc);
    for number in 0..count {
        let link = format!(in alloc;
            "<{number}>;rel=memento;datetime=\"Sat, 01 Jan 2000 00:00:00 GMT\","
        )?;
        body.push_str(&link)?;
    }
    let mut table = MemoryFetch::new(alloc);
    add(&mut table, alloc, "http://arc.example/i", 200, "", &body)?;
    Ok(table)
}

#[test]
fn a_page_of_too_many_mementos(rt: HostRuntime) -> Result<()> {
    for (mementos, count) in [
        (100_000, Ok(100_000)),
        (100_001, Err(WalkFault::TooManyMementos)),
    ] {
        let table = page_of_mementos(rt.alloc(), mementos)?;
        let counts = walk_counts(&rt, &table, "http://arc.example/i")?;
        assert!(rt; counts == (count, 1), "{mementos}");
    }
    Ok(())
}
