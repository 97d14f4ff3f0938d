//! Tests of `memento_index`: what is nearest and what is latest, how many datetimes are looked at, and a merge that is
//! refused. What is listed is tried in `walks`.
ghost use Rattle.std.specs.Prelude.{◌≡◌};
ghost use Rattle.std.specs.List.Sorted.{IsStrictlySortedBy};
ghost use Rattle.memento_time.specs.Mementos.{memento_cmp};

use crate::captures::{Capture, FIRST, ROOT, SECOND, THIRD, are, root};
use crate::makers::{harvest, merge};
use anyhow::{Context, Result};
use memento_index::{Index, Merge, Probed, nearest_in};
use memento_time::{Memento, Original};
use std::alloc::Global;
use std::test::*;
use text_tests::makers::{memento, moment, numbered};

/// Takes what an archive had of the root.
fn take(
    alloc: Global,
    index: &mut Index,
    name: &[u8],
    revision: u64,
    captures: &[Capture],
) -> Result<()> {
    index.absorb(&merge(alloc, name, ROOT, revision, captures)?)?;
    Ok(())
}

/// An index of these of the root.
fn indexed(alloc: Global, captures: &[Capture]) -> Result<Index> {
    let mut index = Index::new(alloc);
    take(alloc, &mut index, b"a1", u64::MAX, captures)?;
    Ok(index)
}

/// Whether the index lists these of the root.
fn lists(alloc: Global, index: &Index, captures: &[Capture]) -> Result<bool> {
    let root = root(alloc)?;
    are(alloc, index.list(&root), captures)
}

fn is_found(alloc: Global, found: Option<&Memento>, wanted: Capture) -> Result<bool> {
    Ok(found == Some(&memento(alloc, wanted.0, wanted.1)?))
}

/// Whether this is the memento of the root that is nearest to a second.
fn is_nearest(alloc: Global, index: &Index, second: u64, wanted: Capture) -> Result<bool> {
    let root = root(alloc)?;
    is_found(alloc, index.nearest(&root, moment(second)?), wanted)
}

fn is_latest(alloc: Global, index: &Index, wanted: Capture) -> Result<bool> {
    let root = root(alloc)?;
    is_found(alloc, index.latest(&root), wanted)
}

/// The second in the middle of the first memento and the second.
const MIDDLE: u64 = 946_771_200;

/// The last second of the year 9999.
const LAST: u64 = 253_402_300_799;

#[test]
fn nearest_and_latest(rt: HostRuntime) -> Result<()> {
    let alloc = rt.alloc();
    let index = indexed(alloc, &[FIRST, SECOND, THIRD])?;
    for (second, wanted) in [(0, FIRST), (MIDDLE, FIRST), (LAST, SECOND)] {
        assert!(rt; is_nearest(alloc, &index, second, wanted)?, "at {second}");
    }
    assert!(rt; is_latest(alloc, &index, SECOND)?);
    Ok(())
}

#[test]
fn the_ends_of_revisions_and_seconds(rt: HostRuntime) -> Result<()> {
    let alloc = rt.alloc();
    let ends: [Capture; 2] = [(0, FIRST.1), (LAST, SECOND.1)];
    let mut index = indexed(alloc, &ends)?;
    take(alloc, &mut index, b"a1", u64::MAX - 1, &[FIRST])?;
    assert!(rt; lists(alloc, &index, &ends)?);
    assert!(rt; is_nearest(alloc, &index, 126_701_150_399, ends[0])?);
    Ok(())
}

/// Takes what another archive had of the root, and tells whether memory for the merge was given.
fn is_taken(alloc: Global, index: &mut Index) -> Result<bool> {
    let merge = merge(alloc, b"b1", ROOT, 2, &[SECOND])?;
    Ok(index.absorb(&merge).is_ok())
}

/// To be run with each allocation of the merge refused in turn.
#[test]
fn a_refused_merge_changes_nothing(rt: HostRuntime) -> Result<()> {
    let alloc = rt.alloc();
    let mut index = indexed(alloc, &[FIRST])?;
    if is_taken(alloc, &mut index)? {
        assert!(rt; lists(alloc, &index, &[FIRST, SECOND])? && index.state().len() == 2);
    } else {
        assert!(rt; lists(alloc, &index, &[FIRST])? && index.state().len() == 1);
    }
    Ok(())
}

/// The list of an original, of which nothing was seen yet.
fn unseen<'a>(index: &'a Index, original: &Original) -> Probed<'a>
    ensures in_order { IsStrictlySortedBy memento_cmp result.list }
    ensures unseen { result.probes ≡ 0 }
{
    Probed::new(index.list(original))
}

/// The place in the list of the root that is nearest to a second, and how many datetimes were asked for.
fn probe(alloc: Global, index: &Index, second: u64) -> Result<(Option<usize>, u64)> {
    let asked = moment(second)?;
    let root = root(alloc)?;
    let mut probed = unseen(index, &root);
    let place = nearest_in(&mut probed, asked);
    Ok((place, probed.probes()))
}

/// So many mementos, at the even seconds from the start of 1970 on.
fn at_even_seconds(alloc: Global, count: u64) -> Result<Index> {
    let mut list = Vec::new(alloc);
    for place in 0..count {
        list.push(memento(alloc, place.saturating_mul(2), FIRST.1)?)?;
    }
    let merge = Merge::Harvest(harvest(alloc, b"a1", ROOT, 1, list)?);
    let mut index = Index::new(alloc);
    index.absorb(&merge)?;
    Ok(index)
}

/// An odd second lies in the middle of two mementos, of which the earlier counts.
#[test]
fn nearest_in_asks_few_datetimes(rt: HostRuntime) -> Result<()> {
    let alloc = rt.alloc();
    assert!(rt; probe(alloc, &Index::new(alloc), MIDDLE)? == (None, 0));
    for (count, most) in [(1, 4), (3, 6), (1_000, 22)] {
        let index = at_even_seconds(alloc, count)?;
        for second in 0..count.saturating_mul(2) {
            let (place, probes) = probe(alloc, &index, second)?;
            assert!(rt;
                place == Some(second as usize / 2) && probes <= most,
                "at {second} of {count}"
            );
        }
    }
    Ok(())
}

/// How many datetimes were asked for once a list of two was asked for its first memento, and then for its second.
fn probes_of_two(alloc: Global, list: &Index) -> Result<Option<(u64, u64)>> {
    let first = moment(FIRST.0)?;
    let second = moment(SECOND.0)?;
    let root = root(alloc)?;
    let mut probed = unseen(list, &root);
    let found = nearest_in(&mut probed, first);
    let probes = probed.probes();
    if found != Some(0) || probes > 6 {
        return Ok(None);
    }
    let found = nearest_in(&mut probed, second);
    if found != Some(1) || probed.len() != 2 {
        return Ok(None);
    }
    Ok(Some((probes, probed.probes())))
}

#[test]
fn probes_are_added_up(rt: HostRuntime) -> Result<()> {
    let alloc = rt.alloc();
    let index = indexed(alloc, &[FIRST, SECOND])?;
    let (first, both) = probes_of_two(alloc, &index)?.context("the wrong place")?;
    assert!(rt; 0 < first && first < both && both <= 12);
    Ok(())
}

/// Every second one of so many mementos, from a place on.
fn every_second(alloc: Global, count: u32, first: usize) -> Result<Vec<Memento>> {
    let mut list = Vec::new(alloc);
    for memento in numbered(alloc, count)?.iter().skip(first).step_by(2) {
        list.push(memento.try_clone()?)?;
    }
    Ok(list)
}

/// Takes these mementos for all that an archive had of the root at a revision.
fn take_all(
    alloc: Global,
    index: &mut Index,
    name: &[u8],
    revision: u64,
    list: Vec<Memento>,
) -> Result<()> {
    index.absorb(&Merge::Harvest(harvest(alloc, name, ROOT, revision, list)?))?;
    Ok(())
}

/// An index of so many mementos of the root, of which two archives have every second one each.
fn halved(alloc: Global, count: u32) -> Result<Index> {
    let mut index = Index::new(alloc);
    take_all(alloc, &mut index, b"a1", 1, every_second(alloc, count, 0)?)?;
    take_all(alloc, &mut index, b"b1", 1, every_second(alloc, count, 1)?)?;
    Ok(index)
}

/// Shares the list of the root, and tells whether the index still lists what it listed.
fn is_same_once_shared(alloc: Global, index: &mut Index, other: &Index) -> Result<bool> {
    let root = root(alloc)?;
    let listed = index.list(&root).to_vec(alloc)?;
    index.share_list(&root, other);
    Ok(index.list(&root) == listed.as_slice())
}

/// Whether the index lists just these of the root.
fn has(alloc: Global, index: &Index, list: &[Memento]) -> Result<bool> {
    let root = root(alloc)?;
    Ok(index.list(&root) == list)
}

/// Whether the list stays as it is once the second archive gets all that the first has.
fn counts_twice(alloc: Global, index: &mut Index, other: &Index, count: u32) -> Result<bool> {
    take_all(alloc, index, b"b1", 2, numbered(alloc, count)?)?;
    is_same_once_shared(alloc, index, other)
}

/// Whether nothing of it goes once the first archive ceases to show it.
fn loses_nothing(alloc: Global, index: &mut Index, other: &Index, count: u32) -> Result<bool> {
    take_all(alloc, index, b"a1", 2, Vec::new(alloc))?;
    let all = numbered(alloc, count)?;
    Ok(has(alloc, index, &all)? && is_same_once_shared(alloc, index, other)?)
}

/// Whether what the second archive ceases to show goes, and the other index stays as it was.
fn loses_half(alloc: Global, index: &mut Index, other: &Index, count: u32) -> Result<bool> {
    take_all(alloc, index, b"b1", 3, every_second(alloc, count, 1)?)?;
    let rest = every_second(alloc, count, 1)?;
    let all = numbered(alloc, count)?;
    Ok(has(alloc, index, &rest)? && has(alloc, other, &all)?)
}

/// The list is shared with that of another index while archives come to show it and cease to.
fn is_listed_while_shared(alloc: Global, count: u32) -> Result<bool> {
    let mut index = halved(alloc, count)?;
    let other = halved(alloc, count)?;
    Ok(
        is_same_once_shared(alloc, &mut index, &other)?
            && counts_twice(alloc, &mut index, &other, count)?
            && loses_nothing(alloc, &mut index, &other, count)?
            && loses_half(alloc, &mut index, &other, count)?,
    )
}

/// A list of 64 is short, and one of 65 isn't.
#[test]
fn lists_are_shared(rt: HostRuntime) -> Result<()> {
    for count in [2, 64, 65] {
        assert!(rt; is_listed_while_shared(rt.alloc(), count)?, "of {count}");
    }
    Ok(())
}

/// Lists that differ stay as they are.
#[test]
fn lists_that_differ_are_not_shared(rt: HostRuntime) -> Result<()> {
    let alloc = rt.alloc();
    let mut index = indexed(alloc, &[FIRST, SECOND])?;
    for captures in [[FIRST, THIRD].as_slice(), &[FIRST], &[]] {
        let other = indexed(alloc, captures)?;
        assert!(rt; is_same_once_shared(alloc, &mut index, &other)?);
        assert!(rt; lists(alloc, &other, captures)?);
    }
    Ok(())
}

/// Nor is a list taken for an original of which nothing is listed.
#[test]
fn an_empty_list_stays_empty(rt: HostRuntime) -> Result<()> {
    let alloc = rt.alloc();
    let index = indexed(alloc, &[FIRST, SECOND])?;
    let mut other = Index::new(alloc);
    assert!(rt; is_same_once_shared(alloc, &mut other, &index)?);
    assert!(rt; lists(alloc, &other, &[])?);
    Ok(())
}
