//! Merging many keys, one by one.
use anyhow::{Context, Result};
use harvest_lattice::{Harvest, State};
use memento_time::{ArchiveName, Clean, Memento, Moment, Original};
use std::alloc::Global;
use std::fmt::Write;

/// The harvest of one memento of the original of this number. Its address is written into the text, whose room is used
/// again.
fn harvest(alloc: Global, text: &mut String, archive: ArchiveName, number: u32) -> Result<Harvest> {
    text.clear();
    write!(text, "http://a.example/{number}")?;
    let original = Original::new(alloc, text.as_bytes())?;
    let uri = Clean::new(alloc, text.as_bytes())?;
    let at = Moment::from_secs(u64::from(number)).context("too late")?;
    let mementos = vec![in alloc; Memento { at, uri }]?;
    Ok(Harvest::new(archive, &original, 1, mementos)?)
}

/// Merges one memento for each of `count` originals into a state: how many keys it has then.
pub(crate) fn merge(alloc: Global, count: u32) -> Result<usize> {
    let archive = ArchiveName::new(b"arc.example").context("no name")?;
    let mut state = State::new(alloc);
    let mut text = String::new(alloc);
    for number in 0..count {
        state.merge(&harvest(alloc, &mut text, archive, number)?)?;
    }
    Ok(state.len())
}
