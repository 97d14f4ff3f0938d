//! What is written of mementos, and the base that it is written under (`timemap_writer`).
use crate::makers::{FIRST_DAY, THIRD_DAY, mementos, numbered, original, service};
use crate::tables::{are_same, expanded, halves, hold, is, is_number, number};
use anyhow::{Result, bail};
use memento_time::Memento;
use std::alloc::Global;
use timemap_writer::{Service, pages, write_gate_links, write_index, write_page, write_timemap};

/// Texts, and the base that a copy of the service stands at which each names, or why it names none. A base has at most
/// 256 bytes, and the text that names it 4,096: of a port the zeros in front are dropped.
const BASES: &str = "http://agg.example|http://agg.example
HTTPS://Agg.Example:8443/|https://agg.example:8443
http://agg.example:0080|http://agg.example
http://agg.example/x|bad base
http://agg.example/?|bad base
http://u@agg.example|bad base
http://:p@agg.example|bad base
http://agg.example/#|bad base
agg.example|bad base
ftp://agg.example|bad base
http://{x*249}|http://{x*249}
http://{x*250}|bad base
http://agg.example:{0*4075}80|http://agg.example
http://agg.example:{0*4076}80|bad base
";

/// The base that a text names, or why it names none.
fn base_of(alloc: Global, text: &[u8]) -> Result<Vec<u8>> {
    match Service::new(alloc, str::from_utf8(text)?) {
        Ok(service) => Ok(Vec::from_slice(alloc, service.try_clone()?.base())?),
        Err(fault) => Ok(format!(in alloc; "{fault}")?.into_bytes()),
    }
}

fn is_base(alloc: Global, case: &str) -> Result<bool> {
    let (text, wanted) = halves(case);
    let found = base_of(alloc, &expanded(alloc, text)?)?;
    Ok(are_same(&found, &expanded(alloc, wanted)?))
}

#[test]
fn bases(rt: HostRuntime) -> Result<()> {
    hold(rt.alloc(), BASES, is_base)
}

/// What every TimeMap of the original `o` begins with.
const FRONT: &str = "<o>; rel=\"original\",
<http://agg.example/timegate/o>; rel=\"timegate\",
<http://agg.example/timemap/link/o>; rel=\"self\"; type=\"application/link-format\"";

/// What follows of one without mementos, of one with the memento `m`, and of one with three.
const OF_NONE: &str = "\n";

const OF_ONE: &str =
    "; from=\"Sat, 01 Jan 2000 00:00:00 GMT\"; until=\"Sat, 01 Jan 2000 00:00:00 GMT\",
<m>; rel=\"first last memento\"; datetime=\"Sat, 01 Jan 2000 00:00:00 GMT\"
";

const OF_THREE: &str =
    "; from=\"Sat, 01 Jan 2000 00:00:00 GMT\"; until=\"Mon, 03 Jan 2000 00:00:00 GMT\",
<m>; rel=\"first memento\"; datetime=\"Sat, 01 Jan 2000 00:00:00 GMT\",
<n>; rel=\"memento\"; datetime=\"Sun, 02 Jan 2000 00:00:00 GMT\",
<p>; rel=\"last memento\"; datetime=\"Mon, 03 Jan 2000 00:00:00 GMT\"
";

const DAYS: [(u64, &[u8]); 3] = [(FIRST_DAY, b"m"), (946_771_200, b"n"), (THIRD_DAY, b"p")];

/// The first so many of three mementos.
fn days(alloc: Global, count: usize) -> Result<Vec<Memento>> {
    Ok(mementos(alloc, &DAYS[..count.min(3)])?)
}

/// Whether a text is the front and the rest, and has no more memory than it needs; the text of no mementos may.
fn is_written(text: &Vec<u8>, front: &str, rest: &str, count: usize) -> bool {
    let is_right = match text.strip_prefix(front.as_bytes()) {
        Some(found) => is(found, rest),
        None => false,
    };
    is_right && (count == 0 || text.capacity() == text.len())
}

fn is_timemap(alloc: Global, count: usize, rest: &str) -> Result<bool> {
    let mementos = days(alloc, count)?;
    let (service, original) = (service(alloc)?, original(alloc, b"o")?);
    let text = write_timemap(alloc, &service, &original, &mementos)?;
    Ok(is_written(&text, FRONT, rest, count))
}

#[test]
fn timemaps(rt: HostRuntime) -> Result<()> {
    assert!(rt; is_timemap(rt.alloc(), 0, OF_NONE)?);
    assert!(rt; is_timemap(rt.alloc(), 1, OF_ONE)?);
    assert!(rt; is_timemap(rt.alloc(), 3, OF_THREE)?);
    Ok(())
}

/// What the `Link` header beside each redirect begins with.
const LINKS_FRONT: &str =
    "<o>; rel=\"original\", <http://agg.example/timemap/link/o>; rel=\"timemap\"; type=\"application/link-format\"";

const LINKS_OF_THREE: &str =
    "; from=\"Sat, 01 Jan 2000 00:00:00 GMT\"; until=\"Mon, 03 Jan 2000 00:00:00 GMT\"";

fn are_gate_links(alloc: Global, count: usize, rest: &str) -> Result<bool> {
    let mementos = days(alloc, count)?;
    let (service, original) = (service(alloc)?, original(alloc, b"o")?);
    let text = write_gate_links(alloc, &service, &original, &mementos)?;
    Ok(is_written(&text, LINKS_FRONT, rest, count))
}

#[test]
fn gate_links(rt: HostRuntime) -> Result<()> {
    assert!(rt; are_gate_links(rt.alloc(), 0, "")?);
    assert!(rt; are_gate_links(rt.alloc(), 3, LINKS_OF_THREE)?);
    Ok(())
}

const ROOT: &[u8] = b"http://a.example/";

/// The page of this number of the list, if it has one.
fn page_of(alloc: Global, mementos: &[Memento], number: usize) -> Result<Vec<u8>> {
    if number == 0 || number > pages(mementos) {
        bail!("no such page");
    }
    let (service, original) = (service(alloc)?, original(alloc, ROOT)?);
    Ok(write_page(alloc, &service, &original, mementos, number)?)
}

fn index_of(alloc: Global, mementos: &[Memento]) -> Result<Vec<u8>> {
    let (service, original) = (service(alloc)?, original(alloc, ROOT)?);
    Ok(write_index(alloc, &service, &original, mementos)?)
}

/// How the index of 1,001 mementos ends, and the whole of their second page.
const TWO_PAGES: &str =
    "; from=\"Sat, 01 Jan 2000 00:00:00 GMT\"; until=\"Sat, 01 Jan 2000 00:16:40 GMT\",
<http://agg.example/timemap/link/page/1/http://a.example/>; rel=\"timemap\"; type=\"application/link-format\"; from=\"Sat, 01 Jan 2000 00:00:00 GMT\"; until=\"Sat, 01 Jan 2000 00:16:39 GMT\",
<http://agg.example/timemap/link/page/2/http://a.example/>; rel=\"timemap\"; type=\"application/link-format\"; from=\"Sat, 01 Jan 2000 00:16:40 GMT\"; until=\"Sat, 01 Jan 2000 00:16:40 GMT\"
";

const SECOND_PAGE: &str = "<http://a.example/>; rel=\"original\",
<http://agg.example/timegate/http://a.example/>; rel=\"timegate\",
<http://agg.example/timemap/link/page/2/http://a.example/>; rel=\"self\"; type=\"application/link-format\"; from=\"Sat, 01 Jan 2000 00:16:40 GMT\"; until=\"Sat, 01 Jan 2000 00:16:40 GMT\",
<http://m.example/1000>; rel=\"last memento\"; datetime=\"Sat, 01 Jan 2000 00:16:40 GMT\"
";

/// How the first of the two pages ends: with a memento that is not the last.
const END_OF_FIRST: &str =
    ",\n<http://m.example/0999>; rel=\"memento\"; datetime=\"Sat, 01 Jan 2000 00:16:39 GMT\"\n";

/// Whether a text has so many bytes, and ends like this.
fn ends_with(text: &[u8], length: usize, end: &str) -> bool {
    text.len() == length && text.ends_with(end.as_bytes())
}

#[test]
fn pages_of_a_long_list(rt: HostRuntime) -> Result<()> {
    let alloc = rt.alloc();
    let mementos = numbered(alloc, 1_001)?;
    assert!(rt; ends_with(&index_of(alloc, &mementos)?, 643, TWO_PAGES));
    assert!(rt; ends_with(&page_of(alloc, &mementos, 1)?, 82_288, END_OF_FIRST));
    assert!(rt; is(&page_of(alloc, &mementos, 2)?, SECOND_PAGE));
    Ok(())
}

/// Whether memory was asked for once, for little more than the text.
fn is_lean(text: &Vec<u8>, more: usize) -> bool {
    text.capacity() < text.len().saturating_add(more)
}

#[test]
fn memory_of_pages(rt: HostRuntime) -> Result<()> {
    let alloc = rt.alloc();
    let mementos = numbered(alloc, 2_001)?;
    for number in 1..4 {
        assert!(rt;
            is_lean(&page_of(alloc, &mementos, number)?, 64),
            "{number}"
        );
    }
    assert!(rt; is_lean(&index_of(alloc, &mementos)?, 128));
    Ok(())
}

/// How many mementos there are, and on how many pages.
const NUMBERS: &str = "0|0
1|1
1000|1
1001|2
2000|2
2001|3
";

fn are_pages(alloc: Global, case: &str) -> Result<bool> {
    let (count, wanted) = halves(case);
    let count = u32::try_from(number(count)?)?;
    let found = pages(&numbered(alloc, count)?);
    Ok(is_number(Some(found as u64), wanted))
}

#[test]
fn numbers_of_pages(rt: HostRuntime) -> Result<()> {
    hold(rt.alloc(), NUMBERS, are_pages)
}

#[test]
fn the_page_of_one_memento(rt: HostRuntime) -> Result<()> {
    let alloc = rt.alloc();
    let one: (u64, &[u8]) = (
        FIRST_DAY,
        b"http://arc.example/web/20000101000000/http://a.example/",
    );
    assert!(rt; page_of(alloc, &mementos(alloc, &[one])?, 1)?.len() == 409);
    Ok(())
}
