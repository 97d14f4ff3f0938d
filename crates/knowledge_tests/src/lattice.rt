//! Tests of `harvest_lattice`. What states show, whatever they take, is tried in `walks`.
use crate::captures::{Capture, FIRST, ROOT, SECOND, THIRD, are, root};
use crate::makers::{harvest, part_harvest};
use anyhow::{Context, Result};
use harvest_lattice::{Entry, Harvest, HarvestFault, Part, Row, State};
use memento_sets::{Mementos, are_same};
use memento_time::Memento;
use std::alloc::Global;
use std::test::*;
use text_tests::makers::{archive, memento, mementos};

/// What an archive had of the root at a revision: all of it, or a part.
#[derive(Clone, Copy)]
struct Had<'a> {
    archive: &'a [u8],
    is_whole: bool,
    revision: u64,
    captures: &'a [Capture],
}

/// All that an archive had.
fn whole<'a>(archive: &'a [u8], revision: u64, captures: &'a [Capture]) -> Had<'a> {
    Had {
        archive,
        is_whole: true,
        revision,
        captures,
    }
}

/// A part of what archive a1 had.
fn part<'a>(revision: u64, captures: &'a [Capture]) -> Had<'a> {
    Had {
        archive: b"a1",
        is_whole: false,
        revision,
        captures,
    }
}

fn harvest_of(alloc: Global, had: Had<'_>) -> Result<Harvest> {
    let list = mementos(alloc, had.captures)?;
    if had.is_whole {
        harvest(alloc, had.archive, ROOT, had.revision, list)
    } else {
        part_harvest(alloc, had.archive, ROOT, had.revision, list)
    }
}

/// A state that takes these, one after the other.
fn state_with(alloc: Global, all: &[Had<'_>]) -> Result<State> {
    let mut state = State::new(alloc);
    for had in all {
        state.merge(&harvest_of(alloc, *had)?)?;
    }
    Ok(state)
}

/// The entry of archive a1 for the root.
fn entry_of_root(alloc: Global, state: &State) -> Result<Entry> {
    let root = root(alloc)?;
    let entry = state.entry(archive(b"a1")?, &root).context("no entry")?;
    Ok(entry.try_clone()?)
}

/// Whether an entry has just these mementos of a revision at a place.
fn has_revision(
    alloc: Global,
    entry: &Entry,
    place: usize,
    revision: u64,
    captures: &[Capture],
) -> Result<bool> {
    if place >= entry.revisions() {
        return Ok(false);
    }
    Ok(entry.revision(place) == revision && are(alloc, entry.mementos(place), captures)?)
}

#[test]
fn harvests_of_one_revision_are_united(rt: HostRuntime) -> Result<()> {
    let alloc = rt.alloc();
    let all = [
        part(5, &[SECOND]),
        part(6, &[THIRD]),
        whole(b"a1", 5, &[FIRST]),
        part(6, &[SECOND]),
    ];
    let entry = entry_of_root(alloc, &state_with(alloc, &all)?)?;
    assert!(rt; entry.whole() == Some(5) && entry.revisions() == 2);
    assert!(rt; has_revision(alloc, &entry, 0, 5, &[FIRST, SECOND])?);
    assert!(rt; has_revision(alloc, &entry, 1, 6, &[SECOND, THIRD])?);
    Ok(())
}

/// Takes a part harvest with no mementos at each of these revisions: from the least on, or in steps that leave gaps and
/// come back between them.
fn take_empty_parts(alloc: Global, state: &mut State, count: u64, step: u64) -> Result<()> {
    for k in 0..count {
        let empty = part(k.wrapping_mul(step) % count, &[]);
        state.merge(&harvest_of(alloc, empty)?)?;
    }
    Ok(())
}

/// Joins another state: whether this one wasn't below it, and it is below this one now.
fn grows_above(state: &mut State, other: &State) -> Result<bool> {
    let was_below = state.le(other);
    state.join(other)?;
    Ok(!was_below && other.le(state))
}

/// Joins a state of so many parts into another, which has none of their revisions between 0 and the last.
fn joins_all(alloc: Global, count: u64, step: u64) -> Result<bool> {
    let mut state = State::new(alloc);
    take_empty_parts(alloc, &mut state, count, step)?;
    let mut other = state_with(alloc, &[part(0, &[FIRST]), part(count, &[SECOND])])?;
    let is_news = grows_above(&mut other, &state)?;
    let entry = entry_of_root(alloc, &other)?;
    Ok(is_news && entry.revisions() as u64 == count.saturating_add(1))
}

#[test]
fn ten_thousand_revisions_are_joined(rt: HostRuntime) -> Result<()> {
    // Ascending, descending, and each between two that stand.
    for step in [1, 9_999, 3_333] {
        assert!(rt; joins_all(rt.alloc(), 10_000, step)?, "in steps of {step}");
    }
    Ok(())
}

/// Takes what another state has, and tells how many rows of it were news.
fn take_changes(state: &mut State, other: &State) -> Result<usize> {
    let changes = state.changes(other)?;
    let count = changes.rows().len();
    state.put(changes)?;
    Ok(count)
}

fn is_news(alloc: Global, state: &State, had: Had<'_>) -> Result<bool> {
    let harvest = harvest_of(alloc, had)?;
    Ok(!state.changes_by(&harvest)?.rows().is_empty())
}

#[test]
fn changes_are_what_is_news(rt: HostRuntime) -> Result<()> {
    let alloc = rt.alloc();
    let standing = [whole(b"a1", 7, &[FIRST]), whole(b"b1", 2, &[THIRD])];
    let coming = [
        whole(b"a1", 7, &[FIRST, SECOND]),
        whole(b"b1", 1, &[FIRST]),
        whole(b"c1", 1, &[FIRST]),
    ];
    let mut here = state_with(alloc, &standing)?;
    let there = state_with(alloc, &coming)?;
    assert!(rt; take_changes(&mut here, &there)? == 2);
    assert!(rt; there.le(&here) && here.len() == 3);
    assert!(rt; !is_news(alloc, &here, whole(b"a1", 6, &[THIRD]))?);
    Ok(())
}

/// Whether a copy of a harvest that shares a state's lists says what the harvest says.
fn is_copied(alloc: Global, state: &State, had: Had<'_>) -> Result<bool> {
    let harvest = harvest_of(alloc, had)?;
    let copy = state.share_harvest(&harvest)?;
    let is_same = are_same(copy.mementos(), harvest.mementos());
    Ok(is_same && copy.revision() == harvest.revision() && copy.is_part() == harvest.is_part())
}

#[test]
fn copies_that_share_lists_are_the_same(rt: HostRuntime) -> Result<()> {
    let alloc = rt.alloc();
    let state = state_with(alloc, &[whole(b"a1", 1, &[FIRST, SECOND])])?;
    for had in [
        whole(b"a1", 2, &[FIRST, SECOND]),
        part(2, &[FIRST, THIRD]),
        whole(b"b1", 1, &[FIRST]),
    ] {
        assert!(rt; is_copied(alloc, &state, had)?);
    }
    Ok(())
}

#[test]
fn states_that_share_lists_are_the_same(rt: HostRuntime) -> Result<()> {
    let alloc = rt.alloc();
    let again = [whole(b"a1", 2, &[FIRST, SECOND]), whole(b"b1", 1, &[FIRST])];
    let state = state_with(alloc, &[whole(b"a1", 1, &[FIRST, SECOND])])?;
    let other = state_with(alloc, &again)?;
    let copy = state.share_state(&other)?;
    assert!(rt; copy.le(&other) && other.le(&copy));
    Ok(())
}

/// A row of one whole revision of the root.
fn row(alloc: Global, name: &[u8], revision: u64) -> Result<Row> {
    let parts = vec![in alloc; part_of(alloc, revision)?]?;
    Ok(Row {
        archive: archive(name)?,
        original: root(alloc)?,
        entry: Entry::with_parts(alloc, Some(revision), parts)?.context("no entry")?,
    })
}

/// A part of an entry.
fn part_of(alloc: Global, revision: u64) -> Result<Part> {
    let mementos = mementos(alloc, &[FIRST])?;
    Ok(Part::new(revision, Mementos::of(mementos))?)
}

/// Whether two parts of these revisions make an entry with this whole revision.
fn makes_entry(alloc: Global, whole: Option<u64>, first: u64, second: u64) -> Result<bool> {
    let first = part_of(alloc, first)?;
    let second = part_of(alloc, second)?;
    let parts = vec![in alloc; first, second]?;
    Ok(Entry::with_parts(alloc, whole, parts)?.is_some())
}

#[test]
fn parts_in_order_make_an_entry(rt: HostRuntime) -> Result<()> {
    for (whole, first, second, is_entry) in [
        (Some(2), 2, 3, true),
        (None, 2, 3, true),
        (Some(3), 2, 3, false),
        (None, 3, 2, false),
        (None, 2, 2, false),
    ] {
        assert!(rt; makes_entry(rt.alloc(), whole, first, second)? == is_entry);
    }
    assert!(rt; Entry::with_parts(rt.alloc(), None, Vec::new(rt.alloc()))?.is_none());
    Ok(())
}

/// The state of these rows, of which copies are made.
fn state_of(alloc: Global, first: &Row, second: &Row) -> Result<State> {
    let rows = vec![in alloc; first.try_clone()?, second.try_clone()?]?;
    State::of_rows(alloc, rows)?.context("no state")
}

/// Whether the first key of a state is of the root and this archive.
fn begins_with(alloc: Global, state: &State, name: &[u8]) -> Result<bool> {
    let archive = archive(name)?;
    let root = root(alloc)?;
    Ok(state.len() > 0 && state.key(0) == (archive, &root))
}

/// The state of one row of archive a1, and one of b1.
fn state_of_two(alloc: Global) -> Result<State> {
    state_of(alloc, &row(alloc, b"a1", 1)?, &row(alloc, b"b1", 1)?)
}

/// Whether another state has two rows, and this one grows above it.
fn takes_two(state: &mut State, other: &State) -> Result<bool> {
    Ok(other.len() == 2 && grows_above(state, other)?)
}

#[test]
fn rows_make_states_that_are_joined(rt: HostRuntime) -> Result<()> {
    let alloc = rt.alloc();
    let mut state = state_with(alloc, &[whole(b"c1", 1, &[SECOND])])?;
    assert!(rt; takes_two(&mut state, &state_of_two(alloc)?)?);
    assert!(rt; state.len() == 3 && begins_with(alloc, &state, b"a1")?);
    assert!(rt; state.rows().next().is_some());
    Ok(())
}

#[test]
fn a_new_state_has_no_rows(rt: HostRuntime) {
    let state = State::new(rt.alloc());
    assert!(rt; state.is_empty() && state.rows().next().is_none());
}

/// Mementos of the first seconds of 1970, the first one twice.
fn captures_of_seconds(alloc: Global, seconds: u64) -> Result<Vec<Memento>> {
    let mut list = mementos(alloc, &[(0, FIRST.1)])?;
    for second in 0..seconds {
        list.push(memento(alloc, second, FIRST.1)?)?;
    }
    Ok(list)
}

/// A harvest of the first seconds of 1970: how many mementos it has, or why it is none.
fn count_of_seconds(alloc: Global, seconds: u64) -> Result<Result<usize, HarvestFault>> {
    let archive = archive(b"a1")?;
    let root = root(alloc)?;
    let harvest = Harvest::new(archive, &root, 1, captures_of_seconds(alloc, seconds)?);
    Ok(harvest.map(|harvest| harvest.mementos().len()))
}

#[test]
fn a_harvest_has_at_most_100_000_distinct_mementos(rt: HostRuntime) -> Result<()> {
    let alloc = rt.alloc();
    assert!(rt; count_of_seconds(alloc, 100_000)? == Ok(100_000));
    assert!(rt; count_of_seconds(alloc, 100_001)? == Err(HarvestFault::TooMany));
    Ok(())
}

/// A copy of a harvest.
fn copy_of(alloc: Global, had: Had<'_>) -> Result<Harvest> {
    Ok(harvest_of(alloc, had)?.try_clone()?)
}

/// Whether a harvest is of revision 7 of archive a1, whole, and of these mementos.
fn is_seventh(alloc: Global, harvest: &Harvest, captures: &[Capture]) -> Result<bool> {
    let is_named = harvest.archive() == archive(b"a1")? && harvest.original().as_bytes() == ROOT;
    let is_whole = harvest.revision() == 7 && !harvest.is_part();
    Ok(is_named && is_whole && are(alloc, harvest.mementos(), captures)?)
}

#[test]
fn a_harvest_keeps_each_memento_once(rt: HostRuntime) -> Result<()> {
    let alloc = rt.alloc();
    let copy = copy_of(alloc, whole(b"a1", 7, &[SECOND, FIRST, SECOND]))?;
    assert!(rt; is_seventh(alloc, &copy, &[FIRST, SECOND])?);
    assert!(rt; copy_of(alloc, part(7, &[FIRST]))?.is_part());
    Ok(())
}
