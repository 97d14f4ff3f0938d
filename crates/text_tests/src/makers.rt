//! What tests speak of, in one call each.
ghost use Rattle.std.specs.Prelude.{◌≡◌, IfOk, codes};

use anyhow::{Context, Result};
use memento_time::{ArchiveName, Clean, Memento, Moment, Octets, Original};
use std::alloc::Global;
use timemap_writer::Service;

/// The first second of 1 January 2000.
pub const FIRST_DAY: u64 = 946_684_800;

/// The first second of 3 January 2000.
pub const THIRD_DAY: u64 = 946_857_600;

/// The moment of this second.
pub fn moment(second: u64) -> Result<Moment>
    ensures { IfOk result (λ moment. moment ≡ second) }
{
    Moment::from_secs(second).context("no moment")
}

/// This text, which is clean.
pub fn clean(alloc: Global, text: &[u8]) -> Result<Clean>
    ensures { IfOk result (λ clean. clean ≡ text.now) }
{
    Ok(Clean::new(alloc, text)?)
}

/// The memento of this second at this address.
pub fn memento(alloc: Global, second: u64, uri: &[u8]) -> Result<Memento>
    ensures { IfOk result (λ memento. memento ≡ record { at = second; uri = uri.now }) }
{
    Ok(Memento {
        at: moment(second)?,
        uri: clean(alloc, uri)?,
    })
}

/// The mementos of these seconds at these addresses, in the order given.
pub fn mementos(alloc: Global, captures: &[(u64, &[u8])]) -> Result<Vec<Memento>> {
    let mut mementos = Vec::new(alloc);
    for (second, uri) in captures {
        mementos.push(memento(alloc, *second, uri)?)?;
    }
    Ok(mementos)
}

/// So many mementos: each is a second later than the one before, the first on `FIRST_DAY`, and its address ends in its
/// place, counted from 0, in at least four digits.
pub fn numbered(alloc: Global, count: u32) -> Result<Vec<Memento>> {
    let mut mementos = Vec::new(alloc);
    for place in 0..count {
        let uri = format!(in alloc; "http://m.example/{place:04}")?;
        mementos.push(memento(alloc, FIRST_DAY + u64::from(place), uri.as_bytes())?)?;
    }
    Ok(mementos)
}

/// The archive of this name.
pub fn archive(name: &[u8]) -> Result<ArchiveName>
    ensures { IfOk result (λ archive. archive ≡ name.now) }
{
    ArchiveName::new(name).context("no name of an archive")
}

/// The original of this address.
pub fn original(alloc: Global, text: &[u8]) -> Result<Original>
    ensures { IfOk result (λ original. original ≡ text.now) }
{
    Ok(Original::new(alloc, text)?)
}

/// The service at `http://agg.example`.
pub fn service(alloc: Global) -> Result<Service> {
    Ok(Service::new(alloc, "http://agg.example")?)
}
