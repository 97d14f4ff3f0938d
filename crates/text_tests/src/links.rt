//! Link-format (RFC 6690, section 2), read and written (`link_format`).
use crate::tables::{are_same, expanded, halves, hold, is, is_number, number};
use anyhow::Result;
use link_format::{
    LinkReader, LinkRef, Links, is_name, is_target, is_value, read_links, write_param, write_target,
};
use std::alloc::Global;
use std::borrow::CowSlice;

/// Texts, and how many links each has, or why it is refused. Each place was counted by hand: that of the first byte
/// with which no link-format can begin, or the text's end where only more bytes are missing.
const TEXTS: &str = "|0 links
,,|0 links
,,<a>;;,|1 links
<a>,<b>|2 links
x|not link-format, at byte 0
 \t x|not link-format, at byte 3
<http://a|not link-format, at byte 9
<a> <b>|not link-format, at byte 4
<a>,;|not link-format, at byte 4
<a\tb>|not link-format, at byte 2
<0123456789abcdef\x7F>|not link-format, at byte 17
<a>, <b|not link-format, at byte 7
<a>;=x|not link-format, at byte 4
<a>;x y|not link-format, at byte 6
<a>;x=|not link-format, at byte 6
<a>;x= ,<b>|not link-format, at byte 7
<a>;x=b, c|not link-format, at byte 9
<a>;x=b;;\x0C|not link-format, at byte 9
<a>;x=\"b\"c|not link-format, at byte 9
<a>;x=\"b\x00\"|not link-format, at byte 8
<a>;x=\"0123456789abcdef\x7F\"|not link-format, at byte 23
<a>;x=\"\\\x7F\"|not link-format, at byte 8
<a>;x=\"\\\"|not link-format, at byte 9
<a>;rel=\"memento\";datetime=\"d|not link-format, at byte 29
<a>;rel=memento;datetime=\"\x7F|not link-format, at byte 26
";

/// The limits of a text, each kept and passed. What follows the most links is reported with its place.
const LIMITS: &str = "<a>{;x=y*32} |1 links
<a>{;x=y*33} |a link with more than 32 parameters
<{a*8192}>|1 links
<{a*8193}>|a target of more than 8,192 bytes
<>{,<>*199999}|200000 links
<>{,<>*200000}|more than 200,000 links
<>{,<>*200000}x|not link-format, at byte 600002
{,*1000000}|0 links
";

/// How many links a text has, or why it is refused.
fn told(alloc: Global, text: &[u8]) -> Result<String> {
    match read_links(alloc, text) {
        Ok(links) => Ok(format!(in alloc; "{} links", links.len())?),
        Err(fault) => Ok(format!(in alloc; "{fault}")?),
    }
}

fn is_told(alloc: Global, case: &str) -> Result<bool> {
    let (text, wanted) = halves(case);
    let told = told(alloc, &expanded(alloc, text)?)?;
    Ok(is(told.as_bytes(), wanted))
}

#[test]
fn reads_texts_or_says_why_not(rt: HostRuntime) -> Result<()> {
    hold(rt.alloc(), TEXTS, is_told)
}

#[test]
fn keeps_the_limits(rt: HostRuntime) -> Result<()> {
    hold(rt.alloc(), LIMITS, is_told)
}

/// attr-char and `*` (RFC 6690, section 2, and RFC 5987, section 3.2.1).
fn is_name_byte(byte: u8) -> bool {
    byte.is_ascii_alphanumeric() || b"!#$&*+-.^_`|~".contains(&byte)
}

/// ptokenchar (RFC 6690, section 2).
fn is_token_byte(byte: u8) -> bool {
    byte.is_ascii_alphanumeric() || b"!#$%&'()*+-./:<=>?@[]^_`{|}~".contains(&byte)
}

fn is_blank(byte: u8) -> bool {
    b" \t\r\n".contains(&byte)
}

/// A byte of a quoted value: any but controls that are no blanks.
fn is_value_byte(byte: u8) -> bool {
    is_blank(byte) || (byte >= b' ' && byte != 0x7F)
}

fn is_target_byte(byte: u8) -> bool {
    byte >= b' ' && byte != b'>' && byte != 0x7F
}

/// A byte that may stand before a link.
fn is_between(byte: u8) -> bool {
    is_blank(byte) || byte == b',' || byte == b'<'
}

fn is_read(rt: &HostRuntime, text: &[u8]) -> bool {
    read_links(rt.alloc(), text).is_ok()
}

#[test]
fn knows_the_bytes(rt: HostRuntime) {
    for b in 0..=255_u8 {
        assert!(rt; is_name(&[b]) == is_name_byte(b), "{b}");
        assert!(rt;
            is_read(&rt, &[b'<', b'a', b'>', b';', b'x', b'=', b]) == is_token_byte(b),
            "{b}"
        );
        assert!(rt; is_value(&[b]) == is_value_byte(b), "{b}");
        assert!(rt; is_target(&[b]) == is_target_byte(b), "{b}");
        assert!(rt;
            is_read(&rt, &[b, b'<', b'a', b'>']) == is_between(b),
            "{b}"
        );
    }
}

/// Texts, how many links each has, the place of a link, its target, how many parameters it has, and the last one's
/// name.
const OUTLINES: &str = ",,<a>;;, <b\u{E9}> ; REL = x;rel=y; bare|2|0|a|0|
,,<a>;;, <b\u{E9}> ; REL = x;rel=y; bare|2|1|b\u{E9}|3|bare
";

/// Whether the link at a place has this target, so many parameters, and this name of the last one.
fn has_outline(links: &Links<'_>, place: usize, outline: &str) -> bool {
    let (target, rest) = halves(outline);
    let (params, last) = halves(rest);
    if place >= links.len() {
        return false;
    }
    let count = links.params(place);
    is_number(Some(count as u64), params)
        && is(links.target(place), target)
        && is(links.link(place).target(), target)
        && (count == 0 || is(links.name(place, count - 1), last))
}

fn is_outline(alloc: Global, case: &str) -> Result<bool> {
    let (text, rest) = halves(case);
    let (count, rest) = halves(rest);
    let (place, outline) = halves(rest);
    let place = usize::try_from(number(place)?)?;
    let links = read_links(alloc, text.as_bytes())?;
    Ok(is_number(Some(links.len() as u64), count) && has_outline(&links, place, outline))
}

/// Texts, the place of a link and the name of a parameter, how its value is got, and the value. A value without escapes
/// is lent from the text, and takes no memory; a parameter without a value has an empty one.
const VALUES: &str = ",,<a>;;, <b> ; REL = x;rel=y; bare|1|rel|lent|x
,,<a>;;, <b> ; REL = x;rel=y; bare|1|Bare|lent|
,,<a>;;, <b> ; REL = x;rel=y; bare|1|type|none|
<a>;x=\"b c\";y=\"b\\ \\\"c\"|0|x|lent|b c
<a>;x=\"b c\";y=\"b\\ \\\"c\"|0|Y|copied|b \"c
<a>;x=\"b c\";y=\"b\\ \\\"c\"|0|y|copied|b \"c
<x>; t=\"a\\\"b\\\\c\"|0|t|copied|a\"b\\c
";

/// Whether a value is got in this way, and is this.
fn is_got(value: Option<CowSlice<'_, u8>>, how: &str, wanted: &str) -> bool {
    match value {
        Some(CowSlice::Borrowed(value)) => is(b"lent", how) && is(value, wanted),
        Some(CowSlice::Owned(value)) => is(b"copied", how) && is(&value, wanted),
        None => is(b"none", how),
    }
}

/// Whether there is a value if this says how it is got, and it is this one.
fn is_owned(value: Option<Vec<u8>>, how: &str, wanted: &str) -> bool {
    match value {
        Some(value) => !is(b"none", how) && is(&value, wanted),
        None => is(b"none", how),
    }
}

/// Whether the link at a place has a value of this name that is got in this way, and is this.
fn has_value(links: &Links<'_>, place: usize, value: &str) -> Result<bool> {
    let (name, rest) = halves(value);
    let (how, wanted) = halves(rest);
    let name = name.as_bytes();
    if place >= links.len() {
        return Ok(false);
    }
    let link = links.link(place);
    Ok(
        is_got(link.value_ref(name)?, how, wanted)
            && is_owned(link.value(name)?, how, wanted)
            && is_owned(links.value(place, name)?, how, wanted),
    )
}

fn is_value_got(alloc: Global, case: &str) -> Result<bool> {
    let (text, rest) = halves(case);
    let (place, value) = halves(rest);
    let place = usize::try_from(number(place)?)?;
    has_value(&read_links(alloc, text.as_bytes())?, place, value)
}

#[test]
fn reads_the_parts_of_a_link(rt: HostRuntime) -> Result<()> {
    hold(rt.alloc(), OUTLINES, is_outline)?;
    hold(rt.alloc(), VALUES, is_value_got)
}

/// Texts, and the targets that a reader reads in them one after the other, and what it says then, twice. A link that
/// passes a limit is where reading ends; the fault is the first of the whole text.
const READINGS: &str = "<a>;b, ,<c>,|ac; the end; the end
<a>,<b|a; not link-format, at byte 6; not link-format, at byte 6
<a>,<b>{;x*33}|a; a link with more than 32 parameters; a link with more than 32 parameters
<a>,<b>{;x*33},<|a; not link-format, at byte 75; not link-format, at byte 75
<a>{,<a>*199999}|{a*200000}; the end; the end
<a>{,<a>*200000}|{a*200000}; more than 200,000 links; more than 200,000 links
";

/// What the next link of a text is: its target, or why there is none.
fn next(alloc: Global, links: &mut LinkReader<'_>, told: &mut Vec<u8>) -> Result<bool> {
    match links.read() {
        Ok(Some(link)) => {
            told.extend_from_slice(link.target())?;
            Ok(true)
        }
        Ok(None) => {
            told.extend_from_slice(b"; the end")?;
            Ok(false)
        }
        Err(fault) => {
            told.extend_from_slice(format!(in alloc; "; {fault}")?.as_bytes())?;
            Ok(false)
        }
    }
}

fn is_reading(alloc: Global, case: &str) -> Result<bool> {
    let (text, wanted) = halves(case);
    let text = expanded(alloc, text)?;
    let mut links = LinkReader::new(alloc, &text);
    let mut told = Vec::new(alloc);
    for _ in 0..=text.len() {
        if !next(alloc, &mut links, &mut told)? {
            break;
        }
    }
    let _ = next(alloc, &mut links, &mut told)?;
    Ok(are_same(&told, &expanded(alloc, wanted)?))
}

#[test]
fn reads_one_link_after_another(rt: HostRuntime) -> Result<()> {
    hold(rt.alloc(), READINGS, is_reading)
}

/// The parameters of a link, how many there are, and how the first values of `rel` and `datetime` are got, each with
/// the value; however they are written: most links of TimeMaps have those of the first text.
const ROLES: &str = "; rel=\"memento\"; datetime=\"d\"|2|lent|memento|lent|d
; rel=\"memento\"; datetime=\"d\"; rel=x; datetime=e; t=u,|5|lent|memento|lent|d
; rel=\"memento\"; datetime=\"\\d\";x|3|lent|memento|copied|d
;rel=memento ;\tdatetime=\"d\"|2|lent|memento|lent|d
;rel=mementos;datetime=\"d\"|2|lent|mementos|lent|d
;REL=memento ;; Datetime = d|2|lent|memento|lent|d
; rel=\"memento\"; until=\"d\"|2|lent|memento|none|
; datetime=\"d\"|1|none||lent|d
";

/// Whether a link's first values of `rel` and `datetime` are got in these ways, and are these.
fn has_roles(link: LinkRef<'_>, roles: &str) -> Result<bool> {
    let (how_rel, rest) = halves(roles);
    let (rel, rest) = halves(rest);
    let (how_datetime, datetime) = halves(rest);
    let found = link.rel_and_datetime()?;
    Ok(is_got(found.0, how_rel, rel) && is_got(found.1, how_datetime, datetime))
}

fn is_role(alloc: Global, case: &str) -> Result<bool> {
    let (params, rest) = halves(case);
    let (count, roles) = halves(rest);
    let text = format!(in alloc; "<a>{params}")?;
    let links = read_links(alloc, text.as_bytes())?;
    if links.len() != 1 || !is_number(Some(links.params(0) as u64), count) {
        return Ok(false);
    }
    has_roles(links.link(0), roles)
}

#[test]
fn reads_rel_and_datetime(rt: HostRuntime) -> Result<()> {
    hold(rt.alloc(), ROLES, is_role)
}

/// What is read back of it, `VALUES` says.
#[test]
fn writes_links(rt: HostRuntime) -> Result<()> {
    assert!(rt; is_target(b"x") && is_name(b"t") && is_value(b"a\"b\\c"));
    let mut text = Vec::new(rt.alloc());
    write_target(&mut text, b"x")?;
    write_param(&mut text, b"t", b"a\"b\\c")?;
    assert!(rt; is(&text, "<x>; t=\"a\\\"b\\\\c\""));
    Ok(())
}
