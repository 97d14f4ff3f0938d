//! Harvests, merges and requests for tests, in one call each.
use anyhow::Result;
use harvest_lattice::Harvest;
use memento_index::Merge;
use memento_time::{Items, Memento, Octets};
use std::alloc::Global;
use text_tests::makers as texts;
use timegate::{Header, Reply, Request};

/// What an archive had of an original at a revision: all of it.
pub fn harvest(
    alloc: Global,
    archive: &[u8],
    original: &[u8],
    revision: u64,
    mementos: Vec<Memento>,
) -> Result<Harvest> {
    let archive = texts::archive(archive)?;
    let original = texts::original(alloc, original)?;
    Ok(Harvest::new(archive, &original, revision, mementos)?)
}

/// What an archive had of an original at a revision: a part.
pub fn part_harvest(
    alloc: Global,
    archive: &[u8],
    original: &[u8],
    revision: u64,
    mementos: Vec<Memento>,
) -> Result<Harvest> {
    let archive = texts::archive(archive)?;
    let original = texts::original(alloc, original)?;
    Ok(Harvest::new_part(archive, &original, revision, mementos)?)
}

/// The merge of a whole harvest with mementos of these seconds at these addresses.
pub fn merge(
    alloc: Global,
    archive: &[u8],
    original: &[u8],
    revision: u64,
    captures: &[(u64, &[u8])],
) -> Result<Merge> {
    let mementos = texts::mementos(alloc, captures)?;
    Ok(Merge::Harvest(harvest(alloc, archive, original, revision, mementos)?))
}

/// The merge of a part harvest with mementos of these seconds at these addresses.
pub fn part_merge(
    alloc: Global,
    archive: &[u8],
    original: &[u8],
    revision: u64,
    captures: &[(u64, &[u8])],
) -> Result<Merge> {
    let mementos = texts::mementos(alloc, captures)?;
    Ok(Merge::Harvest(part_harvest(alloc, archive, original, revision, mementos)?))
}

fn items(alloc: Global, values: &[&[u8]]) -> Result<Items<Octets>> {
    let mut items = Vec::new(alloc);
    for value in values {
        items.push(Octets::from_slice(alloc, value)?)?;
    }
    Ok(Items::of(items))
}

/// A request by this method for this target, with these values of `Accept-Datetime`.
pub fn request(alloc: Global, method: &[u8], target: &[u8], asked: &[&[u8]]) -> Result<Request> {
    Ok(Request {
        method: Octets::from_slice(alloc, method)?,
        target: Octets::from_slice(alloc, target)?,
        asked: items(alloc, asked)?,
    })
}

/// GET of this target, without a datetime.
pub fn get(alloc: Global, target: &[u8]) -> Result<Request> {
    request(alloc, b"GET", target, &[])
}

/// Where a reply leads.
pub fn location(reply: &Reply) -> Option<&[u8]> {
    for (header, value) in reply.headers.as_slice() {
        if *header == Header::Location {
            return Some(value.as_slice());
        }
    }
    None
}
