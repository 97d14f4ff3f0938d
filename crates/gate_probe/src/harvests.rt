//! Harvests, requests and a service for the probes.
use anyhow::{Context, Result};
use harvest_lattice::Harvest;
use memento_index::Merge;
use memento_time::{ArchiveName, Clean, Items, Memento, Moment, Octets, Original};
use std::alloc::Global;
use timegate::Request;
use timemap_writer::Service;

/// The incarnation of every merger here: nobody asks for deltas.
pub(crate) const INCARNATION: u64 = 1;

/// 1 January 2000.
const FIRST_SECOND: u64 = 946_684_800;

pub(crate) fn service(alloc: Global) -> Result<Service> {
    Ok(Service::new(alloc, "http://agg.example")?)
}

/// What an archive has of http://a.example/: one memento, so many days after the first of January 2000.
pub(crate) fn merge(alloc: Global, archive: &[u8], days: u64, uri: &[u8]) -> Result<Merge> {
    let second = FIRST_SECOND.saturating_add(days.saturating_mul(86_400));
    merge_at(alloc, archive, 1, second, uri)
}

/// What an archive has of http://a.example/ at a revision: one memento of this second.
pub(crate) fn merge_at(
    alloc: Global,
    archive: &[u8],
    revision: u64,
    second: u64,
    uri: &[u8],
) -> Result<Merge> {
    let at = Moment::from_secs(second).context("no moment")?;
    let uri = Clean::new(alloc, uri)?;
    let mementos = vec![in alloc; Memento { at, uri }]?;
    let archive = ArchiveName::new(archive).context("no name")?;
    let original = Original::new(alloc, b"http://a.example/")?;
    Ok(Merge::Harvest(Harvest::new(archive, &original, revision, mementos)?))
}

/// So many mementos of the original of this number, one a day, at this revision.
pub(crate) fn many(alloc: Global, number: u32, count: u32, revision: u64) -> Result<Merge> {
    let mut mementos = Vec::new(alloc);
    for day in 0..count {
        let second = FIRST_SECOND.saturating_add(u64::from(day).saturating_mul(86_400));
        let at = Moment::from_secs(second).context("no moment")?;
        let text = format!(in alloc; "http://archive.example/{second}/http://a.example/{number}")?;
        let uri = Clean::new(alloc, text.as_bytes())?;
        mementos.push(Memento { at, uri })?;
    }
    let archive = ArchiveName::new(b"archive.example").context("no name")?;
    let text = format!(in alloc; "http://a.example/{number}")?;
    let original = Original::new(alloc, text.as_bytes())?;
    Ok(Merge::Harvest(Harvest::new(archive, &original, revision, mementos)?))
}

/// GET of this target, without a datetime.
pub(crate) fn request(alloc: Global, target: &[u8]) -> Result<Request> {
    Ok(Request {
        method: Octets::from_slice(alloc, b"GET")?,
        target: Octets::from_slice(alloc, target)?,
        asked: Items::of(Vec::new(alloc)),
    })
}

/// GET of the TimeGate of the original of this number, for a datetime in the middle of its mementos.
pub(crate) fn question(alloc: Global, number: u32) -> Result<Request> {
    let target = format!(in alloc; "/timegate/http://a.example/{number}")?;
    let asked = Octets::from_slice(alloc, b"Thu, 15 Mar 2001 12:00:00 GMT")?;
    Ok(Request {
        method: Octets::from_slice(alloc, b"GET")?,
        target: Octets::from_slice(alloc, target.as_bytes())?,
        asked: Items::of(vec![in alloc; asked]?),
    })
}
