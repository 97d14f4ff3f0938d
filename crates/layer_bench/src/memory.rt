//! Filling an index, to see how much memory it takes.
use anyhow::{Context, Result};
use harvest_lattice::Harvest;
use memento_index::{Index, Merge};
use memento_time::{ArchiveName, Clean, Memento, Moment, Original};
use std::alloc::Global;

const ARCHIVES: [&str; 3] = ["one.example", "other.example", "third.example"];

/// `count` mementos from a number on, with addresses of 60 bytes.
fn mementos(alloc: Global, first: u32, count: u32) -> Result<Vec<Memento>> {
    let mut list = Vec::new(alloc);
    for number in first..first.saturating_add(count) {
        let text = format!(in alloc;
            "http://web.archive.example/20010203040506/http://a.ex/{number:06}"
        )?;
        let uri = Clean::new(alloc, text.as_bytes())?;
        let at = Moment::from_secs(u64::from(number)).context("too late")?;
        list.push(Memento { at, uri })?;
    }
    Ok(list)
}

/// The original of this number.
pub(crate) fn original(alloc: Global, number: u32) -> Result<Original> {
    let text = format!(in alloc; "http://a.example/{number}")?;
    Ok(Original::new(alloc, text.as_bytes())?)
}

/// What an archive has of an original at a revision: `count` mementos from a number on.
pub(crate) fn harvest(
    alloc: Global,
    name: &str,
    original: &Original,
    revision: u32,
    first: u32,
    count: u32,
) -> Result<Harvest> {
    let archive = ArchiveName::new(name.as_bytes()).context("no name")?;
    let captures = mementos(alloc, first, count)?;
    Ok(Harvest::new(archive, original, u64::from(revision), captures)?)
}

/// What three archives have of an original: ten mementos, three of each archive and the tenth of the last.
pub(crate) fn merges(alloc: Global, number: u32) -> Result<Vec<Merge>> {
    let of = original(alloc, number)?;
    let mut list = Vec::new(alloc);
    let mut first = number.saturating_mul(10);
    for name in ARCHIVES {
        let share = if name == "third.example" { 4 } else { 3 };
        list.push(Merge::Harvest(harvest(alloc, name, &of, 1, first, share)?))?;
        first = first.saturating_add(share);
    }
    Ok(list)
}

/// An index of `count` mementos, ten of each original: how many keys it has.
pub(crate) fn fill(alloc: Global, count: u32) -> Result<usize> {
    let mut index = Index::new(alloc);
    for number in 0..count / 10 {
        for merge in &merges(alloc, number)? {
            index.absorb(merge)?;
        }
    }
    Ok(index.state().len())
}

/// An index of 1,000,000 mementos of one archive, as many of each of `originals`: how many keys it has.
pub(crate) fn spread(alloc: Global, originals: u32) -> Result<usize> {
    let share = 1_000_000u32.checked_div(originals).context("how many?")?;
    let mut index = Index::new(alloc);
    for number in 0..originals {
        let of = original(alloc, number)?;
        let first = number.saturating_mul(share);
        let taken = harvest(alloc, "one.example", &of, 1, first, share)?;
        index.absorb(&Merge::Harvest(taken))?;
    }
    Ok(index.state().len())
}
