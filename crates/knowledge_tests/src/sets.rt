//! Tests of `memento_sets`.
use crate::captures::{Capture, FIRST, SECOND, THIRD, are};
use anyhow::{Context, Result};
use memento_sets::{Mementos, are_same, contains_rising, get_rising};
use memento_time::{Memento, NoMemory, Original};
use std::alloc::Global;
use std::collections::BTreeMap;
use std::test::*;
use text_tests::makers::{memento, mementos, original};

fn set(alloc: Global, captures: &[Capture]) -> Result<Mementos> {
    Ok(Mementos::of(mementos(alloc, captures)?))
}

/// Whether these are what a set has and another hasn't.
fn is_rest(alloc: Global, set: &Mementos, other: &Mementos, captures: &[Capture]) -> Result<bool> {
    let rest = set.without(other)?;
    are(alloc, rest.as_slice(), captures)
}

fn unite(set: &mut Mementos, other: &Mementos) -> Result<()> {
    set.absorb(other.clone()?)?;
    Ok(())
}

/// Whether a set comes to have another and is more than that one, of which just these are news.
fn takes(alloc: Global, set: &mut Mementos, other: &Mementos, news: &[Capture]) -> Result<bool> {
    let is_news = !other.is_subset(set) && is_rest(alloc, other, set, news)?;
    unite(set, other)?;
    Ok(is_news && other.is_subset(set) && !are_same(other.as_slice(), set.as_slice()))
}

#[test]
fn sets_are_united(rt: HostRuntime) -> Result<()> {
    let alloc = rt.alloc();
    let mut all = set(alloc, &[THIRD, SECOND, THIRD])?;
    assert!(rt; all.len() == 2);
    assert!(rt; takes(alloc, &mut all, &set(alloc, &[THIRD, FIRST])?, &[FIRST])?);
    assert!(rt; are(alloc, &all.into_vec(), &[FIRST, SECOND, THIRD])?);
    Ok(())
}

fn has(alloc: Global, set: &Mementos, capture: Capture) -> Result<bool> {
    let memento: Memento = memento(alloc, capture.0, capture.1)?;
    Ok(set.has(&memento))
}

/// The set of a list, if the list is in order.
fn sorted_set(alloc: Global, captures: &[Capture]) -> Result<Option<Mementos>> {
    Ok(Mementos::of_sorted(mementos(alloc, captures)?))
}

/// Whether a set has the first memento and the third, and not the second.
fn lacks_second(set: &Mementos) -> Result<bool> {
    let alloc = set.allocator();
    Ok(
        are(alloc, set.as_slice(), &[FIRST, THIRD])?
            && has(alloc, set, THIRD)?
            && !has(alloc, set, SECOND)?,
    )
}

#[test]
fn a_list_in_order_makes_a_set(rt: HostRuntime) -> Result<()> {
    let made = sorted_set(rt.alloc(), &[FIRST, THIRD])?.context("in order")?;
    assert!(rt; lacks_second(&made)?);
    assert!(rt; sorted_set(rt.alloc(), &[THIRD, FIRST])?.is_none());
    Ok(())
}

/// What maps of originals hold in these tests: how long each original is.
type Lengths = BTreeMap<Original, usize>;

fn put(map: &mut Lengths, original: Original) -> Result<(), NoMemory> {
    let length = original.as_bytes().len();
    map.insert(original, length)?;
    Ok(())
}

fn lengths(alloc: Global, originals: &[&str]) -> Result<Lengths> {
    let mut map = BTreeMap::new(alloc);
    for each in originals {
        put(&mut map, original(alloc, each.as_bytes())?)?;
    }
    Ok(map)
}

/// Whether a map has this length at an original, by either call, or has none there.
fn holds(alloc: Global, map: &Lengths, sought: &str, length: Option<usize>) -> Result<bool> {
    let sought = original(alloc, sought.as_bytes())?;
    let found = get_rising(map, &sought).copied();
    Ok(found == length && contains_rising(map, &sought) == length.is_some())
}

/// Whether a map has nothing before its first original, between two of them, and behind the last.
fn lacks_others(alloc: Global, map: &Lengths) -> Result<bool> {
    Ok(
        holds(alloc, map, "http://a.example/", None)?
            && holds(alloc, map, "http://c.example/", None)?
            && holds(alloc, map, "http://e.example/", None)?,
    )
}

#[test]
fn originals_are_found_among_rising_ones(rt: HostRuntime) -> Result<()> {
    let alloc = rt.alloc();
    let map = lengths(alloc, &["http://b.example/", "http://d.example/2"])?;
    assert!(rt;
        holds(alloc, &map, "http://b.example/", Some(17))?
            && holds(alloc, &map, "http://d.example/2", Some(18))?
            && lacks_others(alloc, &map)?
    );
    Ok(())
}
