//! Tests of sets and lists of originals.
use anyhow::{Context, Result};
use memento_time::Original;
use original_list::{
    Row, Withdrawals, bad_entry, each_once, read_list, read_withdrawn, row_of, spellings_of,
};
use original_sets::{Key, OriginalSet};
use std::alloc::Global;
use std::hash::RandomState;
use std::test::*;
use text_tests::makers::original;
use text_tests::tables::{halves, hold, is};

/// Whether these are the addresses of a list, in this order, with bars between them.
fn are(list: &[Original], addresses: &str) -> bool {
    let mut rest = addresses;
    for original in list {
        let (address, more) = halves(rest);
        if !is(original.as_bytes(), address) {
            return false;
        }
        rest = more;
    }
    rest.is_empty()
}

/// The originals of these addresses, with bars between them.
fn originals(alloc: Global, addresses: &str) -> Result<Vec<Original>> {
    let mut list = Vec::new(alloc);
    for address in addresses.split('|') {
        list.push(original(alloc, address.as_bytes())?)?;
    }
    Ok(list)
}

fn has(alloc: Global, set: &OriginalSet, address: &[u8]) -> Result<bool> {
    Ok(set.has(&Key::new(&original(alloc, address)?)?))
}

/// Whether an original is new to the set.
fn insert(alloc: Global, set: &mut OriginalSet, address: &[u8]) -> Result<bool> {
    Ok(set.insert(Key::new(&original(alloc, address)?)?)?)
}

#[test]
fn a_set_has_each_original_once(rt: HostRuntime) -> Result<()> {
    let alloc = rt.alloc();
    let (a, b) = (b"http://a.example/", b"http://b.example/");
    let mut set = OriginalSet::with_room(alloc, 0, RandomState::new(&rt)?)?;
    assert!(rt; !has(alloc, &set, a)? && insert(alloc, &mut set, a)?);
    assert!(rt; !insert(alloc, &mut set, a)?);
    assert!(rt; has(alloc, &set, a)? && !has(alloc, &set, b)?);
    Ok(())
}

#[test]
fn two_lists_are_one_in_which_none_stands_twice(rt: HostRuntime) -> Result<()> {
    let alloc = rt.alloc();
    let first = originals(alloc, "http://a.example/|http://b.example/")?;
    let second = originals(
        alloc,
        "http://c.example/|http://a.example/|http://c.example/",
    )?;
    let list = each_once(alloc, &first, &second, RandomState::new(&rt)?)?;
    assert!(rt;
        are(
            &list,
            "http://a.example/|http://b.example/|http://c.example/"
        )
    );
    Ok(())
}

/// Lines, and the original that each names, or what else it is.
const LINES: &str = " http://a.example/\r|http://a.example/
 \t\r|blank
nothing|bad
";

fn is_row(alloc: Global, case: &str) -> Result<bool> {
    let (line, wanted) = halves(case);
    Ok(match row_of(alloc, line.as_bytes())? {
        Row::Named(named) => is(named.as_bytes(), wanted),
        Row::Blank => is(b"blank", wanted),
        Row::Bad => is(b"bad", wanted),
    })
}

#[test]
fn a_line_names_an_original_or_none(rt: HostRuntime) -> Result<()> {
    hold(rt.alloc(), LINES, is_row)
}

#[test]
fn a_text_has_originals_and_bad_lines(rt: HostRuntime) -> Result<()> {
    let text = b"http://a.example/\n\nnothing\nhttp://b.example/\nnone";
    let listed = read_list(rt.alloc(), text)?;
    assert!(rt; are(&listed.originals, "http://a.example/|http://b.example/"));
    assert!(rt; listed.bad.as_slice() == [3, 5].as_slice() && listed.bad_count == 2);
    Ok(())
}

/// What is withdrawn by a text.
fn withdrawn_by(alloc: Global, text: &[u8]) -> Result<Withdrawals> {
    read_withdrawn(alloc, text).ok().context("not read")
}

const WITHDRAWN: &[u8] = b"# asked for by mail
archive arc.example
prefix https://a.example/x
original http://b.example/

prefix http://a.example/
prefix http://a.example
prefix ftp://a.example/
archive /";

/// Whether these are the prefixes of `WITHDRAWN`.
fn are_prefixes(withdrawn: &Withdrawals) -> bool {
    match withdrawn.prefixes.as_slice() {
        [first, second] => {
            is(first.as_bytes(), "https://a.example/x")
                && is(second.as_bytes(), "http://a.example/")
        }
        _ => false,
    }
}

#[test]
fn what_is_withdrawn_is_read_by_its_kind(rt: HostRuntime) -> Result<()> {
    let withdrawn = withdrawn_by(rt.alloc(), WITHDRAWN)?;
    assert!(rt; withdrawn.archives.len() == 1 && are_prefixes(&withdrawn));
    assert!(rt; are(&withdrawn.originals, "http://b.example/"));
    assert!(rt; withdrawn.bad.as_slice() == [7, 8, 9].as_slice() && withdrawn.bad_count == 3);
    Ok(())
}

/// So many bad lines behind an empty one.
fn bad_lines(alloc: Global, count: u64) -> Result<Vec<u8>> {
    let mut text = Vec::new(alloc);
    for _ in 0..count {
        text.extend_from_slice(b"\nx")?;
    }
    Ok(text)
}

/// Of lines that name nothing the first 20 are told by their numbers, and all are counted.
#[test]
fn more_lines_that_name_nothing_are_counted_than_told(rt: HostRuntime) -> Result<()> {
    let withdrawn = withdrawn_by(rt.alloc(), &bad_lines(rt.alloc(), 23)?)?;
    assert!(rt; withdrawn.bad.len() == 20 && withdrawn.bad_count == 23);
    assert!(rt; withdrawn.bad.first() == Some(&2) && withdrawn.bad.last() == Some(&21));
    Ok(())
}

/// Whether an original has just these other spellings.
fn is_spelled(alloc: Global, case: &str) -> Result<bool> {
    let (address, others) = halves(case);
    let original = original(alloc, address.as_bytes())?;
    Ok(is(original.as_bytes(), address) && are(&spellings_of(alloc, &original)?, others))
}

#[test]
fn an_original_has_three_other_spellings(rt: HostRuntime) -> Result<()> {
    let case =
        "http://a.example/x|https://a.example/x|http://www.a.example/x|https://www.a.example/x";
    assert!(rt; is_spelled(rt.alloc(), case)?);
    Ok(())
}

/// With a port, a user, or an address in place of a name.
const NO_NAMES: &str = "http://a.example:81/|
http://user@a.example/|
http://[2001:db8::1]/|
";

#[test]
fn what_is_no_name_alone_has_no_other_spellings(rt: HostRuntime) -> Result<()> {
    hold(rt.alloc(), NO_NAMES, is_spelled)
}

#[test]
fn the_first_bad_one_is_told_by_its_number(rt: HostRuntime) -> Result<()> {
    let alloc = rt.alloc();
    let text =
        "good = [\"http://a.example/\"]\nbad = [\"http://a.example/\", \"ftp://b.example/\", 7]\nnumber = 7";
    let table = toml::table_from_str(alloc, text)?;
    for (key, place) in [
        ("good", None),
        ("bad", Some(2)),
        ("number", None),
        ("none", None),
    ] {
        assert!(rt; bad_entry(alloc, &table, key)? == place, "{key}");
    }
    Ok(())
}
