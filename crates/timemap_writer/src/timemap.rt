//! TimeMaps, and the `Link` header of a redirect.
ghost use Rattle.std.specs.Prelude.{◌≡◌, ◌≤◌, ◌==◌, ◌&&◌, not, ◌++◌, length, IfOk, OnOk, codes};
ghost use Rattle.link_format.specs.Grammar.{IsTarget};
ghost use Rattle.link_format.specs.Writing.{links_each_behind, links_joined_by, link_text};
ghost use Rattle.timemap_writer.specs.TimeMap.{lines_text, timemap_link, timemap_text, gate_links};
ghost use Rattle.timemap_writer.specs.Pages.{pages, IsPage, stretch, page_address, page_path, page_text, index_text};
ghost use Rattle.timemap_writer.specs.Pages.{stretch_links};
ghost use Rattle.timemap_writer.specs.Places.{head_at};

use crate::lines::{Place, datetime, push_memento, push_original, push_timegate, push_timemap};
use crate::service::Service;
use memento_time::{DateWriter, Memento, NoMemory, Original};
use std::alloc::Global;
use text_fields::write_decimal;

/// How many bytes a TimeMap has in addition to its addresses, its path and the lines of its mementos, the first and
/// last of which have `first` and `last`.
const LISTING_FRAME: usize = 185;

/// How many bytes a memento's line has in addition to its address.
const MEMENTO_FRAME: usize = 61;

/// How many bytes the `Link` header has in addition to its addresses.
const LINKS_FRAME: usize = 160;

/// How many mementos are on a page.
const PER_PAGE: usize = 1000;

/// The length of the longest page path, in bytes.
const PAGE_PATH: usize = 40;

/// How many bytes a page's line in an index has in addition to its base and its original.
const PAGE_FRAME: usize = 173;

/// The path of an original's TimeMap, or of the index of its pages.
const TIMEMAP_PATH: &[u8] = b"/timemap/link/";

/// The TimeMap of an original in link-format. The mementos are sorted and distinct, as an index lists them. The first
/// one also has the relation `first`, and the last one `last`. If the list is empty, the link to the TimeMap itself has
/// neither `from` nor `until`.
pub fn write_timemap(
    alloc: Global,
    service: &Service,
    original: &Original,
    mementos: &[Memento],
) -> Result<Vec<u8>, NoMemory>
    ensures { IfOk result (λ text. text.items ≡ timemap_text service.now original.now mementos.now) }
{
    let place = Place {
        service,
        path: TIMEMAP_PATH,
        original,
    };
    listing(alloc, &place, mementos, true, false)
}

/// A page of an original's TimeMap, with the mementos of its stretch of the list. Only the first memento of the whole
/// list has the relation `first`, and only its last one `last`, so a page without them has neither.
pub fn write_page(
    alloc: Global,
    service: &Service,
    original: &Original,
    mementos: &[Memento],
    page: usize,
) -> Result<Vec<u8>, NoMemory>
    requires { IsPage mementos.now page }
    ensures { IfOk result (λ text. text.items ≡ page_text service.now original.now mementos.now page) }
{
    let path = page_path(alloc, page)?;
    let (first, more) = (page == 1, page < pages(mementos));
    let place = Place {
        service,
        path: &path,
        original,
    };
    let stretch = stretch(mementos, page);
    listing(alloc, &place, stretch, first, more)
}

/// The index of the pages of an original's TimeMap, which takes the TimeMap's place. It has no mementos, but a link to
/// each page, in order.
pub fn write_index(
    alloc: Global,
    service: &Service,
    original: &Original,
    mementos: &[Memento],
) -> Result<Vec<u8>, NoMemory>
    ensures { IfOk result (λ text. text.items ≡ index_text service.now original.now mementos.now) }
{
    let count = pages(mementos);
    let mut text = Vec::with_capacity(alloc, index_size(service, original, count))?;
    let mut dates = DateWriter::new();
    let place = Place {
        service,
        path: TIMEMAP_PATH,
        original,
    };
    push_head(&mut text, alloc, &mut dates, &place, mementos)?;
    for page in 1..count + 1 {
        push_page(&mut text, &mut dates, &place, page, stretch(mementos, page))?;
    }
    text.extend_from_slice(b"\n")?;
    Ok(text)
}

/// The text at this place that lists these mementos. `first` says whether the first of them is the first of all, and
/// `more` whether others follow the last.
fn listing(
    alloc: Global,
    place: &Place<'_>,
    mementos: &[Memento],
    first: bool,
    more: bool,
) -> Result<Vec<u8>, NoMemory>
    requires { IsTarget place.now.path.now }
    ensures { IfOk result (λ text. text.items
        ≡ lines_text (head_at place.now mementos.now ++ stretch_links first more mementos.now)) }
{
    let mut text = Vec::with_capacity(alloc, listing_size(place, mementos))?;
    let mut dates = DateWriter::new();
    push_head(&mut text, alloc, &mut dates, place, mementos)?;
    push_mementos(&mut text, &mut dates, first, more, mementos)?;
    text.extend_from_slice(b"\n")?;
    Ok(text)
}

/// How many pages of 1,000 mementos the list has. The last page may be shorter.
pub fn pages(mementos: &[Memento]) -> usize
    ensures { result ≡ pages mementos.now }
{
    mementos.len().div_ceil(PER_PAGE)
}

/// How many mementos are on a page.
fn stretch(mementos: &[Memento], page: usize) -> &[Memento]
    requires { IsPage mementos.now page }
    ensures { result.now ≡ stretch page mementos.now }
{
    let left = &mementos[PER_PAGE * (page - 1)..];
    &left[..left.len().min(PER_PAGE)]
}

/// The part of the page's address between the base and the original.
fn page_path(alloc: Global, page: usize) -> Result<Vec<u8>, NoMemory>
    ensures value { IfOk result (λ path. path.items ≡ page_path page) }
    ensures target { IfOk result (λ path. IsTarget path.items) }
{
    let mut path = Vec::with_capacity(alloc, PAGE_PATH)?;
    path.extend_from_slice(b"/timemap/link/page/")?;
    write_decimal(&mut path, page as u64)?;
    path.extend_from_slice(b"/")?;
    Ok(path)
}

/// Appends the lines at the head of a text that lists these mementos at this place.
fn push_head(
    out: &mut Vec<u8>,
    alloc: Global,
    dates: &mut DateWriter,
    place: &Place<'_>,
    mementos: &[Memento],
) -> Result<(), NoMemory>
    requires { IsTarget place.now.path.now }
    ensures { OnOk result (out.new.items
        ≡ out.old.items ++ links_joined_by (codes ",\n") (head_at place.now mementos.now)) }
{
    push_original(out, place.original)?;
    out.extend_from_slice(b",\n")?;
    push_timegate(out, alloc, place.service, place.original)?;
    out.extend_from_slice(b",\n")?;
    push_timemap(out, alloc, dates, b"self", place, mementos)?;
    Ok(())
}

/// Appends the line of a page in the index at this place, after a comma and the end of the line before, for the
/// mementos that the page lists. Its pieces are as few as in `push_memento`.
fn push_page(
    out: &mut Vec<u8>,
    dates: &mut DateWriter,
    index: &Place<'_>,
    page: usize,
    mementos: &[Memento],
) -> Result<(), NoMemory>
    requires { 1 ≤ length mementos.now }
    ensures { OnOk result (out.new.items ≡ out.old.items ++ codes ",\n"
        ++ link_text (timemap_link (codes "timemap") (page_address index.now.service.now index.now.original.now page) mementos.now)) }
{
    let (first, last) = (&mementos[0], &mementos[mementos.len() - 1]);
    out.extend_from_slice(b",\n<")?;
    out.extend_from_slice(index.service.base())?;
    out.extend_from_slice(b"/timemap/link/page/")?;
    write_decimal(out, page as u64)?;
    out.extend_from_slice(b"/")?;
    out.extend_from_slice(index.original.as_bytes())?;
    out.extend_from_slice(b">; rel=\"timemap\"; type=\"application/link-format\"; from=\"")?;
    out.extend_from_slice(&datetime(dates, first))?;
    out.extend_from_slice(b"\"; until=\"")?;
    out.extend_from_slice(&datetime(dates, last))?;
    out.push(b'"')?;
    Ok(())
}

/// Appends the lines of these mementos. `first` says whether the first of them is the first of all, and `more` whether
/// others follow the last.
fn push_mementos(
    out: &mut Vec<u8>,
    dates: &mut DateWriter,
    first: bool,
    more: bool,
    mementos: &[Memento],
) -> Result<(), NoMemory>
    ensures { OnOk result (out.new.items
        ≡ out.old.items ++ links_each_behind (codes ",\n") (stretch_links first more mementos.now)) }
{
    let mut first = first;
    let mut left = mementos;
    while let [memento, rest @ ..] = left {
        push_memento(out, dates, first, is_last(more, rest), memento)?;
        first = false;
        left = rest;
    }
    Ok(())
}

/// Whether a memento is the last of all: none is left after it in its stretch, and no others follow the stretch.
fn is_last(more: bool, rest: &[Memento]) -> bool
    ensures { result ≡ (not more && (length rest.now == 0)) }
{
    !more && rest.is_empty()
}

/// How many bytes an index of this many pages has, or the greatest `usize` if it has more.
fn index_size(service: &Service, original: &Original, pages: usize) -> usize {
    let addresses = service.base().len() + original.as_bytes().len();
    let head = LISTING_FRAME + 2 * service.base().len() + 3 * original.as_bytes().len();
    pages
        .saturating_mul(PAGE_FRAME + addresses)
        .saturating_add(head + TIMEMAP_PATH.len())
}

/// How many bytes the text has, so that memory is asked for only once. If that exceeds every size, the allocator
/// refuses.
fn listing_size(place: &Place<'_>, mementos: &[Memento]) -> usize {
    let addresses = 2 * place.service.base().len() + 3 * place.original.as_bytes().len();
    mementos.iter().fold(
        (LISTING_FRAME + addresses).saturating_add(place.path.len()),
        |size, memento| {
            size.saturating_add(MEMENTO_FRAME)
                .saturating_add(memento.uri.as_bytes().len())
        },
    )
}

/// The value of the `Link` header of a redirect to a memento of the original: the links to the original and to its
/// TimeMap. The mementos are sorted and distinct.
pub fn write_gate_links(
    alloc: Global,
    service: &Service,
    original: &Original,
    mementos: &[Memento],
) -> Result<Vec<u8>, NoMemory>
    ensures { IfOk result (λ text. text.items ≡ gate_links service.now original.now mementos.now) }
{
    let addresses = service.base().len() + 2 * original.as_bytes().len();
    let mut text = Vec::with_capacity(alloc, LINKS_FRAME + addresses)?;
    push_original(&mut text, original)?;
    text.extend_from_slice(b", ")?;
    let mut dates = DateWriter::new();
    let place = Place {
        service,
        path: TIMEMAP_PATH,
        original,
    };
    push_timemap(&mut text, alloc, &mut dates, b"timemap", &place, mementos)?;
    Ok(text)
}
