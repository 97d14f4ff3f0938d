//! What the calls are made on, in one call each.
use anyhow::{Context, Result};
use harvest_lattice::Harvest;
use memento_time::{ArchiveName, Clean, Items, Memento, Moment, Octets, Original};
use std::alloc::Global;
use timegate::Request;
use timemap_writer::Service;

/// The first second of 1 January 2000.
pub(crate) const FIRST_DAY: u64 = 946_684_800;

/// The first second of 3 January 2000.
pub(crate) const THIRD_DAY: u64 = 946_857_600;

/// The moment of this second.
pub(crate) fn moment(second: u64) -> Result<Moment> {
    Moment::from_secs(second).context("no moment")
}

/// A list of the one memento of this second at this address.
pub(crate) fn mementos(alloc: Global, second: u64, uri: &[u8]) -> Result<Vec<Memento>> {
    let at = moment(second)?;
    let uri = Clean::new(alloc, uri)?;
    Ok(vec![in alloc; Memento { at, uri }]?)
}

/// The archive a1.
pub(crate) fn archive() -> Result<ArchiveName> {
    ArchiveName::new(b"a1").context("no name")
}

/// The original of which everything is told.
pub(crate) fn original(alloc: Global) -> Result<Original> {
    Ok(Original::new(alloc, b"http://a.example/")?)
}

/// What the archive a1 has of the original at a revision: one memento.
pub(crate) fn harvest(alloc: Global, revision: u64, second: u64, uri: &[u8]) -> Result<Harvest> {
    let mementos = mementos(alloc, second, uri)?;
    Ok(Harvest::new(archive()?, &original(alloc)?, revision, mementos)?)
}

/// The service at `http://agg.example`.
pub(crate) fn service(alloc: Global) -> Result<Service> {
    Ok(Service::new(alloc, "http://agg.example")?)
}

/// GET of this target, without a datetime.
pub(crate) fn get(alloc: Global, target: &[u8]) -> Result<Request> {
    Ok(Request {
        method: Octets::from_slice(alloc, b"GET")?,
        target: Octets::from_slice(alloc, target)?,
        asked: Items::of(Vec::new(alloc)),
    })
}
