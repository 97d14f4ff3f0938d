//! Reading what a page says.
use anyhow::Result;
use std::alloc::Global;
use timemap_reader::read_page;

/// How many mementos, how many further pages and how many dropped links a page has.
pub(crate) fn counts_of(alloc: Global, body: &[u8]) -> Result<[usize; 3]> {
    let page = read_page(alloc, "http://arc.example/list", body)?;
    let mementos = page.mementos.as_slice().len();
    Ok([
        mementos,
        page.further.as_slice().len(),
        page.dropped as usize,
    ])
}
