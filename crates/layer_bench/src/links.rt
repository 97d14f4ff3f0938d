//! Reading the links of a page.
use link_format::{LinkFault, LinkReader};
use std::alloc::Global;

/// What the plain program counts too: links, bytes of targets, bytes of the values of `rel` and of `datetime`. As the
/// reader of pages reads them: link by link, and none is kept.
pub(crate) fn counts_of(alloc: Global, page: &[u8]) -> Result<[usize; 4], LinkFault> {
    let mut counts = [0usize; 4];
    let mut links = LinkReader::new(alloc, page);
    while let Some(link) = links.read()? {
        counts[0] = counts[0].wrapping_add(1);
        counts[1] = counts[1].wrapping_add(link.target().len());
        let (rel, datetime) = link.rel_and_datetime()?;
        if let Some(rel) = rel {
            counts[2] = counts[2].wrapping_add(rel.len());
        }
        if let Some(datetime) = datetime {
            counts[3] = counts[3].wrapping_add(datetime.len());
        }
    }
    Ok(counts)
}
