//! Pages of archives, and originals, as they are read (`timemap_reader`).
use crate::tables::{are_same, expanded, halves, hold, is};
use anyhow::Result;
use link_format::LinkFault;
use std::alloc::Global;
use timemap_reader::{Page, PageFault, read_original, read_page};

/// Where the pages here were fetched.
const BASE: &str = "http://arc.example/list/x";

/// What a page says: its mementos, its further TimeMaps, and how many links it leaves out, if any.
fn words_of(alloc: Global, page: &Page) -> Result<Vec<u8>> {
    let mut words = Vec::new(alloc);
    for memento in page.mementos.as_slice() {
        let at = format!(in alloc; "{} ", memento.at.secs())?;
        words.extend_from_slice(at.as_bytes())?;
        words.extend_from_slice(memento.uri.as_bytes())?;
        words.extend_from_slice(b", ")?;
    }
    for further in page.further.as_slice() {
        words.extend_from_slice(b"timemap ")?;
        words.extend_from_slice(further.as_bytes())?;
        words.extend_from_slice(b", ")?;
    }
    let dropped = format!(in alloc; "{} left out", page.dropped)?;
    words.extend_from_slice(dropped.as_bytes())?;
    Ok(words)
}

/// What a body that was fetched at a base says, or why it is refused.
fn told(alloc: Global, base: &str, body: &[u8]) -> Result<Vec<u8>> {
    match read_page(alloc, base, body) {
        Ok(page) => words_of(alloc, &page),
        Err(fault) => Ok(format!(in alloc; "{fault}")?.into_bytes()),
    }
}

/// How an archive lays out a page: folded lines, the original and the page itself among the links, and mementos in no
/// order, of which one is listed twice and one bears the address of another.
const PAGE: &str = " <http://a>;rel=\"original\",
<http://arc.example/list/x>
  ; rel=\"self\";type=\"application/link-format\",
<//m/2>
  ; rel=\"last memento\";datetime=\"Mon, 03 Jan 2000 00:00:00 GMT\",
<//m/1>;rel=\"first memento\";datetime=\"Sat, 01 Jan 2000 00:00:00 GMT\",
<//m/2>;rel=memento;datetime=\"Mon, 03 Jan 2000 00:00:00 GMT\",
<//m/1>;rel=memento;datetime=\"Mon, 03 Jan 2000 00:00:00 GMT\",
<//m/t>;rel=timemap,<//m/s>;rel=timemap,<//m/t#x>;rel=timemap
";

const PAGE_SAYS: &str =
    "946684800 http://m/1, 946857600 http://m/1, 946857600 http://m/2, timemap http://m/t, timemap http://m/s, 0 left out";

#[test]
fn a_page(rt: HostRuntime) -> Result<()> {
    assert!(rt; is(&told(rt.alloc(), BASE, PAGE.as_bytes())?, PAGE_SAYS));
    Ok(())
}

/// The layout of most archives, with a comma behind the last link.
const LAYOUT: &[u8] = br#"<http://a.example>;rel="original",
<http://arc.example/list>
  ; rel="self";type="application/link-format",
<http://arc.example/web/1>
  ; rel="first memento";datetime="Sat, 01 Jan 2000 00:00:00 GMT",
<http://arc.example/web/2>
  ; rel="last memento";datetime="Mon, 03 Jan 2000 00:00:00 GMT",
"#;

/// How many mementos are read of the layout where it is cut, or none if it is refused at its end, as a text of which
/// more is missing. No cut is refused otherwise.
fn read_to(alloc: Global, end: usize) -> Result<Option<usize>, PageFault> {
    match read_page(alloc, BASE, &LAYOUT[..end.min(LAYOUT.len())]) {
        Ok(page) => Ok(Some(page.mementos.as_slice().len())),
        Err(PageFault::Links(LinkFault::NotLinkFormat { at })) if at == end => Ok(None),
        Err(fault) => Err(fault),
    }
}

/// Of how many cuts this comes.
fn cuts_with(alloc: Global, wanted: Option<usize>) -> usize {
    let mut cuts = 0usize;
    for end in 0..=LAYOUT.len() {
        if read_to(alloc, end) == Ok(wanted) {
            cuts = cuts.saturating_add(1);
        }
    }
    cuts
}

/// Cut at each byte a page is read as far as it goes, with a memento for each datetime that came whole, or refused at
/// the place where more is missing: within a target or a quoted value, or behind `=`. The numbers are another reader's.
#[test]
fn cut_pages(rt: HostRuntime) {
    let alloc = rt.alloc();
    assert!(rt; LAYOUT.len() == 293);
    assert!(rt; cuts_with(alloc, Some(0)) == 46);
    assert!(rt; cuts_with(alloc, Some(1)) == 22);
    assert!(rt; cuts_with(alloc, Some(2)) == 3);
    assert!(rt; cuts_with(alloc, None) == 223);
}

/// Targets, further parameters, and what a page says whose one link has these, and the datetime of 1 January 2000.
/// Only the first `rel` and the first `type` count. A target is resolved against the base. A link that is left out as a
/// memento and as a further TimeMap is counted twice. A quotation mark in a target is written as three bytes, and an
/// address has at most 8,192 bytes once it is.
const LINKS: &str = "//m/x|rel=original|0 left out
//m/x|rel=mementos|0 left out
//m/x|rel=\"MEMENTO First\";rel=timemap|946684800 http://m/x, 0 left out
//m/x|rel=\"timemap memento\"|946684800 http://m/x, timemap http://m/x, 0 left out
//m/x|rel=\"memento\ttimemap\"|946684800 http://m/x, timemap http://m/x, 0 left out
//m/x|rel=\"memento\rtimemap\"|946684800 http://m/x, timemap http://m/x, 0 left out
//m/x|rel=\"memento,timemap\"|0 left out
//m/x|rel=\"timemap self\"|0 left out
//m/x|rel=\"next timemap\";type=application/link-format|timemap http://m/x, 0 left out
//m/x|rel=timemap;type=\"Application/Link-Format; a\"|timemap http://m/x, 0 left out
//m/x|rel=timemap;type=\"application/json\"|0 left out
//m/x|rel=timemap;type=a;type=\"application/link-format\"|0 left out
../w/1|rel=\"memento timemap\"|946684800 http://arc.example/w/1, timemap http://arc.example/w/1, 0 left out
http://m/\u{E9}|rel=\"memento timemap\"|946684800 http://m/%C3%A9, timemap http://m/%C3%A9, 0 left out
//m/\u{E9}|rel=\"memento timemap\"|946684800 http://m/%C3%A9, timemap http://m/%C3%A9, 0 left out
HTTPS://m:80/a/../\"#b|rel=\"memento timemap\"|946684800 HTTPS://m:80/a/../%22#b, timemap HTTPS://m:80/a/../%22, 0 left out
?p=2#b|rel=\"memento timemap\"|946684800 http://arc.example/list/x?p=2#b, timemap http://arc.example/list/x?p=2, 0 left out
//[|rel=\"memento timemap\"|2 left out
//[|rel=memento|1 left out
//[|rel=timemap|1 left out
ftp://m/|rel=\"memento timemap\"|2 left out
ftp://m/|rel=memento|1 left out
ftp://m/|rel=timemap|1 left out
mailto:a@m|rel=\"memento timemap\"|2 left out
mailto:a@m|rel=memento|1 left out
mailto:a@m|rel=timemap|1 left out
http://m/\"{x*8180}|rel=memento|946684800 http://m/%22{x*8180}, 0 left out
http://m/\"{x*8180}|rel=timemap|timemap http://m/%22{x*8180}, 0 left out
http://m/\"{x*8181}|rel=memento|1 left out
http://m/\"{x*8181}|rel=timemap|1 left out
";

/// Whether a page says this whose one link has this target, these parameters, and the datetime of 1 January 2000.
fn names(alloc: Global, target: &[u8], params: &str, wanted: &[u8]) -> Result<bool> {
    let mut text = Vec::from_slice(alloc, b"<")?;
    text.extend_from_slice(target)?;
    text.extend_from_slice(b">;datetime=\"Sat, 01 Jan 2000 00:00:00 GMT\";")?;
    text.extend_from_slice(params.as_bytes())?;
    Ok(are_same(&told(alloc, BASE, &text)?, wanted))
}

fn is_link(alloc: Global, case: &str) -> Result<bool> {
    let (target, rest) = halves(case);
    let (params, wanted) = halves(rest);
    let target = expanded(alloc, target)?;
    names(alloc, &target, params, &expanded(alloc, wanted)?)
}

/// Blanks within a value, of which line ends are some.
const FOLDED: &str =
    "//m/x|rel=timemap;type=\" \t\r\napplication/link-format \t\r\n;a\"|timemap http://m/x, 0 left out";

const TWO_LINES: &str =
    "//m/x|rel=\"memento\ntimemap\"|946684800 http://m/x, timemap http://m/x, 0 left out";

#[test]
fn links(rt: HostRuntime) -> Result<()> {
    hold(rt.alloc(), LINKS, is_link)?;
    assert!(rt; is_link(rt.alloc(), FOLDED)?);
    assert!(rt; is_link(rt.alloc(), TWO_LINES)?);
    Ok(())
}

/// A target that is no text.
#[test]
fn targets_that_are_no_texts(rt: HostRuntime) -> Result<()> {
    let alloc = rt.alloc();
    assert!(rt; names(alloc, b"\xFF", "rel=\"memento timemap\"", b"2 left out")?);
    assert!(rt; names(alloc, b"\xFF", "rel=memento", b"1 left out")?);
    assert!(rt; names(alloc, b"\xFF", "rel=timemap", b"1 left out")?);
    Ok(())
}

/// Bases, bodies, and what each body says or why it is refused.
const BODIES: &str =
    "http://arc/|<//m/x>;rel=memento;datetime=\" Thu, 29 Feb 2024 23:59:59 GMT\t\"|1709251199 http://m/x, 0 left out
http://arc/|<//m/x>;DateTime=\"Sat, 01 Jan 2000 00:00:00 GMT\";datetime=a;rel=memento|946684800 http://m/x, 0 left out
http://arc/|<//m/x>;src=w;rel=memento;c=\"a, b; c\";datetime=\"Sat, 01 Jan 2000 00:00:00 GMT\"|946684800 http://m/x, 0 left out
http://arc/|<//m/x>;rel=memento;datetime=a;datetime=\"Sat, 01 Jan 2000 00:00:00 GMT\"|1 left out
http://arc/|<//m/x>;rel=memento;datetime=\"2002-03-28T01:28:21Z\"|1 left out
http://arc/|<//m/x>;rel=memento|1 left out
ftp://arc/|x|not link-format, at byte 0
ftp://arc/||a base that is no http or https URL
list||a base that is no http or https URL
http://arc/{x*8181}||0 left out
http://arc/{x*8182}||a base that is no http or https URL
http://arc/|<a>{,<a>*200000}|more than 200,000 links
http://arc/|<a>{;b*33}|a link with more than 32 parameters
http://arc/|<{a*8193}>|a target of more than 8,192 bytes
";

fn is_told(alloc: Global, case: &str) -> Result<bool> {
    let (base, rest) = halves(case);
    let (body, wanted) = halves(rest);
    let base = expanded(alloc, base)?;
    let told = told(alloc, str::from_utf8(&base)?, &expanded(alloc, body)?)?;
    Ok(is(&told, wanted))
}

#[test]
fn bodies(rt: HostRuntime) -> Result<()> {
    hold(rt.alloc(), BODIES, is_told)
}

/// The longest page, and one that is longer.
#[test]
fn limits_of_pages(rt: HostRuntime) -> Result<()> {
    hold(rt.alloc(), "http://arc/|{,*8388608}|0 left out\n", is_told)?;
    hold(
        rt.alloc(),
        "http://arc/|{,*8388609}|a page of more than 8,388,608 bytes\n",
        is_told,
    )
}

/// Texts, and the original that each is, or why it is none. An original has at most 4,096 bytes as it is sent, and as
/// it is written: a letter of two bytes is written as six.
const ORIGINALS: &str = "HTTP://A.Example|http://a.example/
http://a/#x|http://a/
http://a:80/b/../c|http://a/c
http://a/?q=1|http://a/?q=1
ftp://a/|not an http or https URL
|not a URL
a.example|not a URL
http://a/{x*4087}|http://a/{x*4087}
http://a/{x*4088}|an original of more than 4,096 bytes
http://a/1{\u{E9}*681}|http://a/1{%C3%A9*681}
http://a/12{\u{E9}*681}|an original of more than 4,096 bytes
";

fn is_original(alloc: Global, case: &str) -> Result<bool> {
    let (text, wanted) = halves(case);
    let text = expanded(alloc, text)?;
    let wanted = expanded(alloc, wanted)?;
    Ok(match read_original(alloc, str::from_utf8(&text)?) {
        Ok(original) => are_same(original.as_bytes(), &wanted),
        Err(fault) => are_same(format!(in alloc; "{fault}")?.as_bytes(), &wanted),
    })
}

#[test]
fn originals(rt: HostRuntime) -> Result<()> {
    hold(rt.alloc(), ORIGINALS, is_original)
}
