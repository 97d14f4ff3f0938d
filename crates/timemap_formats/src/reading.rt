//! Reads what a text in link-format lists.
ghost use Rattle.std.specs.Prelude.{◌≡◌, ◌≤◌, ◌++◌, length, drop, codes, bytes_eq, IfOk, option_map, None};
ghost use Rattle.std.specs.Option.{option_and_then};
ghost use Rattle.timemap_formats.specs.Listing.{clean_at, before, second_at, ends_of, memento_row, page_row};
ghost use Rattle.text_fields.specs.Parts.{behind};
ghost use Rattle.timemap_formats.specs.Listing.{row_of, rows_of, base_at, place_at, head_by, head_of};
ghost use Rattle.timemap_formats.specs.Listing.{listing_below, listing_of, Lists};

use crate::listing::{Ends, Head, Listing, PageLink, Row};
use link_format::{LinkFault, LinkRef, Links, read_links};
use memento_time::{Clean, CleanFault, DateReader, Items, Memento, Moment, NoMemory};
use std::alloc::Global;
use text_fields::behind;

/// How many links are the head of a listing.
const HEAD: usize = 3;

/// A copy of the text, if it is clean.
fn clean_at(alloc: Global, text: &[u8]) -> Result<Option<Clean>, NoMemory>
    ensures { IfOk result (λ clean. clean ≡ clean_at text.now) }
{
    match Clean::new(alloc, text) {
        Ok(clean) => Ok(Some(clean)),
        Err(CleanFault::NotClean) => Ok(None),
        Err(CleanFault::NoMemory) => Err(NoMemory),
    }
}

/// What comes before the end, if the text ends with it.
fn before<'a>(end: &[u8], text: &'a [u8]) -> Option<&'a [u8]>
    ensures { option_map (λ front. front.now) result ≡ before end.now text.now }
{
    let from = text.len().saturating_sub(end.len());
    let (front, rest) = text.split_at(from);
    if rest == end { Some(front) } else { None }
}

/// The moment that the link's first parameter of this name says.
fn second_at(
    dates: &mut DateReader,
    name: &[u8],
    link: &LinkRef<'_>,
) -> Result<Option<Moment>, NoMemory>
    ensures { IfOk result (λ second. second ≡ second_at name.now link.now) }
{
    match link.value_ref(name)? {
        Some(text) => Ok(dates.read(&text)),
        None => Ok(None),
    }
}

/// Which of all a memento with these relation types is.
fn ends_of(relations: &[u8]) -> Option<Ends>
    ensures { result ≡ ends_of relations.now }
{
    if relations == b"memento".as_slice() {
        return Some(Ends {
            first: false,
            last: false,
        });
    }
    if relations == b"first memento".as_slice() {
        return Some(Ends {
            first: true,
            last: false,
        });
    }
    if relations == b"last memento".as_slice() {
        return Some(Ends {
            first: false,
            last: true,
        });
    }
    if relations == b"first last memento".as_slice() {
        return Some(Ends {
            first: true,
            last: true,
        });
    }
    None
}

/// What follows the front, if the text begins with it and the rest is clean.
fn clean_behind(alloc: Global, front: &[u8], text: &[u8]) -> Result<Option<Clean>, NoMemory>
    ensures { IfOk result (λ place. place ≡ option_and_then clean_at (behind front.now text.now)) }
{
    match behind(front, text) {
        Some(rest) => clean_at(alloc, rest),
        None => Ok(None),
    }
}

/// The memento of a link.
fn memento_row(
    alloc: Global,
    dates: &mut DateReader,
    ends: Option<Ends>,
    link: &LinkRef<'_>,
) -> Result<Option<Row>, NoMemory>
    ensures { IfOk result (λ row. row
        ≡ memento_row ends (second_at (codes "datetime") link.now) (clean_at link.now.target)) }
{
    let Some(ends) = ends else {
        return Ok(None);
    };
    let Some(at) = second_at(dates, b"datetime", link)? else {
        return Ok(None);
    };
    let Some(uri) = clean_at(alloc, link.target())? else {
        return Ok(None);
    };
    Ok(Some(Row::OfMemento(ends, Memento { at, uri })))
}

/// The page of a link whose address begins with the front.
fn page_row(
    alloc: Global,
    dates: &mut DateReader,
    front: &[u8],
    link: &LinkRef<'_>,
) -> Result<Option<Row>, NoMemory>
    ensures { IfOk result (λ row. row
        ≡ page_row (option_and_then clean_at (behind front.now link.now.target))
        (second_at (codes "from") link.now) (second_at (codes "until") link.now)) }
{
    let Some(place) = clean_behind(alloc, front, link.target())? else {
        return Ok(None);
    };
    let Some(from) = second_at(dates, b"from", link)? else {
        return Ok(None);
    };
    let Some(until) = second_at(dates, b"until", link)? else {
        return Ok(None);
    };
    Ok(Some(Row::OfPage(PageLink { place, from, until })))
}

fn is_timemap(relations: &[u8]) -> bool
    ensures { result ≡ bytes_eq relations.now (codes "timemap") }
{
    relations == b"timemap".as_slice()
}

/// What a link below the head lists.
#[tactic(auto, unfolding(crate::specs::Listing::row_of))]
fn row_of(
    alloc: Global,
    dates: &mut DateReader,
    front: &[u8],
    link: &LinkRef<'_>,
) -> Result<Option<Row>, NoMemory>
    ensures { IfOk result (λ row. row ≡ row_of front.now link.now) }
{
    let Some(relations) = link.value_ref(b"rel")? else {
        return Ok(None);
    };
    if is_timemap(&relations) {
        return page_row(alloc, dates, front, link);
    }
    memento_row(alloc, dates, ends_of(&relations), link)
}

/// What the links below the head list, if each lists something.
fn rows_of(alloc: Global, front: &[u8], links: &Links<'_>) -> Result<Option<Vec<Row>>, NoMemory>
    requires { 3 ≤ length links.now }
    ensures { IfOk result (λ rows. option_map (λ rows. rows.items) rows ≡ rows_of front.now (drop 3 links.now)) }
{
    let count = links.len();
    let mut rows = Vec::with_capacity(alloc, count - HEAD)?;
    let mut dates = DateReader::new();
    for k in HEAD..count {
        let row = row_of(alloc, &mut dates, front, &links.link(k))?;
        match row {
            Some(row) => rows.push(row)?,
            None => return Ok(None),
        }
    }
    Ok(Some(rows))
}

/// One text after the other.
fn joined(alloc: Global, first: &[u8], second: &[u8]) -> Result<Vec<u8>, NoMemory>
    ensures { IfOk result (λ text. text.items ≡ first.now ++ second.now) }
{
    let mut text = Vec::from_slice(alloc, first)?;
    text.extend_from_slice(second)?;
    Ok(text)
}

/// The base at which the original's TimeGate stands.
fn base_at(alloc: Global, original: &[u8], gate: &[u8]) -> Result<Option<Clean>, NoMemory>
    ensures { IfOk result (λ base. base ≡ base_at original.now gate.now) }
{
    let end = joined(alloc, b"/timegate/", original)?;
    match before(&end, gate) {
        Some(front) => clean_at(alloc, front),
        None => Ok(None),
    }
}

/// What the text's own address has behind the front.
fn place_at(alloc: Global, base: &Clean, itself: &[u8]) -> Result<Option<Clean>, NoMemory>
    ensures { IfOk result (λ place. place ≡ place_at base.now itself.now) }
{
    let front = joined(alloc, base.as_bytes(), b"/timemap/link/")?;
    clean_behind(alloc, &front, itself)
}

/// The head below a base.
fn head_by(
    alloc: Global,
    base: Clean,
    original: &[u8],
    itself: &[u8],
) -> Result<Option<Head>, NoMemory>
    ensures { IfOk result (λ head. head ≡ head_by base (clean_at original.now) (place_at base itself.now)) }
{
    let Some(original) = clean_at(alloc, original)? else {
        return Ok(None);
    };
    let Some(place) = place_at(alloc, &base, itself)? else {
        return Ok(None);
    };
    Ok(Some(Head {
        base,
        original,
        place,
    }))
}

/// What the targets of the first three links name.
#[tactic(auto, unfolding(crate::specs::Listing::head_of))]
fn head_of(
    alloc: Global,
    original: &[u8],
    gate: &[u8],
    itself: &[u8],
) -> Result<Option<Head>, NoMemory>
    ensures { IfOk result (λ head. head ≡ head_of original.now gate.now itself.now) }
{
    match base_at(alloc, original, gate)? {
        Some(base) => head_by(alloc, base, original, itself),
        None => Ok(None),
    }
}

/// What the links below a head list, if there is one.
fn listing_below(
    alloc: Global,
    head: Option<Head>,
    links: &Links<'_>,
) -> Result<Option<Listing>, NoMemory>
    requires { 3 ≤ length links.now }
    ensures { IfOk result (λ listing. listing ≡ listing_below head (drop 3 links.now)) }
{
    let Some(head) = head else {
        return Ok(None);
    };
    let front = joined(alloc, head.base.as_bytes(), b"/timemap/link/")?;
    match rows_of(alloc, &front, links)? {
        Some(rows) => Ok(Some(Listing {
            head,
            rows: Items::of(rows),
        })),
        None => Ok(None),
    }
}

/// What the links list.
#[tactic(auto, using(crate::proofs::ReadingLemmas::listing_few))]
fn listing_of(alloc: Global, links: &Links<'_>) -> Result<Option<Listing>, NoMemory>
    ensures { IfOk result (λ listing. listing ≡ listing_of links.now) }
{
    if links.len() < HEAD {
        return Ok(None);
    }
    let original = links.target(0);
    let gate = links.target(1);
    let itself = links.target(2);
    let head = head_of(alloc, original, gate, itself)?;
    listing_below(alloc, head, links)
}

/// Nothing is listed by a text with a fault, unless memory was refused.
fn refused(fault: LinkFault) -> Result<Option<Listing>, NoMemory>
    ensures { IfOk result (λ listing. (fault ≡ LinkFault.NoMemory → ⊥) × (listing ≡ None)) }
{
    match fault {
        LinkFault::NoMemory => Err(NoMemory),
        _ => Ok(None),
    }
}

/// What a TimeMap, the index of its pages or a page in link-format lists. `None` if the text isn't link-format within
/// the limits of `read_links`, or isn't such a text.
///
/// Takes time and memory in proportion to the text.
pub fn read_listing(alloc: Global, text: &[u8]) -> Result<Option<Listing>, NoMemory>
    ensures { IfOk result (Lists text.now) }
{
    match read_links(alloc, text) {
        Ok(links) => listing_of(alloc, &links),
        Err(fault) => refused(fault),
    }
}
