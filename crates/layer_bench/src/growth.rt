//! What an index keeps of the same mementos, come in different ways.
use crate::memory::{harvest, original};
use anyhow::Result;
use harvest_lattice::State;
use memento_index::{Index, Merge};
use replica_exchange::{read_state, write_state};
use std::alloc::Global;

/// The merges of an archive's first `count` mementos of each of ten originals.
fn merges(alloc: Global, name: &str, revision: u32, count: u32) -> Result<Vec<Merge>> {
    let mut list = Vec::new(alloc);
    for number in 0..10u32 {
        let of = original(alloc, number)?;
        let first = number.saturating_mul(10_000);
        list.push(Merge::Harvest(harvest(alloc, name, &of, revision, first, count)?))?;
    }
    Ok(list)
}

/// Has an index take these merges.
fn absorb(alloc: Global, index: &mut Index, name: &str, revision: u32, count: u32) -> Result<()> {
    for merge in &merges(alloc, name, revision, count)? {
        index.absorb(merge)?;
    }
    Ok(())
}

/// An index in which an archive has one memento of each original, so that no list is one archive's alone.
fn begun(alloc: Global) -> Result<Index> {
    let mut index = Index::new(alloc);
    absorb(alloc, &mut index, "other.example", 1, 1)?;
    Ok(index)
}

/// `count` mementos of each original: in one merge (`at_once`), in revisions that each have one memento more than the
/// one before (`rounds`), or in one revision that comes again and again, each time with one memento more (`repeats`).
/// How many keys there are then.
pub(crate) fn take(alloc: Global, kind: &str, count: u32) -> Result<usize> {
    let mut index = begun(alloc)?;
    let first = if kind == "at_once" { count } else { 1 };
    for more in first..=count {
        let revision = if kind == "rounds" { more } else { 1 };
        absorb(alloc, &mut index, "one.example", revision, more)?;
    }
    Ok(index.state().len())
}

/// Texts of states that each have one key more than the one before. How many keys there are then.
pub(crate) fn take_texts(alloc: Global, count: u32) -> Result<usize> {
    let mut index = Index::new(alloc);
    let mut sent = State::new(alloc);
    for number in 0..count {
        let first = number.saturating_mul(10_000);
        let of = original(alloc, number)?;
        sent.merge(&harvest(alloc, "one.example", &of, 1, first, 1)?)?;
        let text = write_state(alloc, &sent)?;
        index.absorb(&Merge::State(read_state(alloc, &text)?))?;
    }
    Ok(index.state().len())
}

/// Merges that an index tries `count` times to take, of 1,000 mementos of each original. How many were refused memory,
/// which has to be seen to from outside.
pub(crate) fn try_again(alloc: Global, count: u32) -> Result<usize> {
    let mut index = begun(alloc)?;
    let merges = merges(alloc, "one.example", 1, 1000)?;
    let mut refused = 0usize;
    for _ in 0..count {
        for merge in &merges {
            if index.absorb(merge).is_err() {
                refused = refused.saturating_add(1);
            }
        }
    }
    Ok(refused)
}
