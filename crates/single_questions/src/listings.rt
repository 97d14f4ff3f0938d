//! A TimeMap as a listing, of which JSON and CDXJ are written.
ghost use Rattle.std.specs.Prelude.{◌≡◌, IfOk, true};
ghost use Rattle.memento_time.specs.Text.{IsClean};
ghost use Rattle.timemap_formats.specs.Readback.{memento_rows, timemap_listing};

use memento_time::{Clean, CleanFault, Items, Memento, NoMemory, Original};
use std::alloc::Global;
use timemap_formats::{Ends, Head, Listing, Row};
use timemap_writer::Service;

/// A copy of a clean text.
fn copy_of(alloc: Global, text: &[u8]) -> Result<Clean, NoMemory>
    requires { IsClean text.now }
    ensures { IfOk result (λ copy. copy ≡ text.now) }
{
    match Clean::new(alloc, text) {
        Ok(copy) => Ok(copy),
        Err(CleanFault::NoMemory) => Err(NoMemory),
        Err(CleanFault::NotClean) => unreachable!(),
    }
}

/// The mementos as rows, of which the first and the last are marked.
fn rows_of(alloc: Global, mementos: &[Memento]) -> Result<Vec<Row>, NoMemory>
    ensures { IfOk result (λ rows. rows.items ≡ memento_rows true mementos.now) }
{
    let mut rows = Vec::with_capacity(alloc, mementos.len())?;
    let mut first = true;
    let mut left = mementos;
    while let [memento, rest @ ..] = left {
        let ends = Ends {
            first,
            last: rest.is_empty(),
        };
        rows.push(Row::OfMemento(ends, memento.try_clone()?))?;
        first = false;
        left = rest;
    }
    Ok(rows)
}

/// What the TimeMap of an original lists. The mementos are sorted and distinct.
pub(crate) fn listing_of(
    alloc: Global,
    service: &Service,
    original: &Original,
    mementos: &[Memento],
) -> Result<Listing, NoMemory>
    ensures { IfOk result (λ listing. listing ≡ timemap_listing service.now original.now mementos.now) }
{
    let head = Head {
        base: copy_of(alloc, service.base())?,
        original: copy_of(alloc, original.as_bytes())?,
        place: copy_of(alloc, original.as_bytes())?,
    };
    let rows = rows_of(alloc, mementos)?;
    Ok(Listing {
        head,
        rows: Items::of(rows),
    })
}
