//! Tests of `memento_index` and of the states below it: whatever an index takes, in whatever order, it lists what the
//! rule says.
ghost use Rattle.std.specs.Prelude.{◌<◌};

use crate::rule::{ORIGINALS, Taken, harvest_of, listed, mementos_of};
use anyhow::Result;
use harvest_lattice::{Harvest, State};
use memento_index::{Index, Merge};
use std::alloc::Global;
use std::test::*;
use text_tests::makers::original;

/// Takes a copy of a merge that shares the index's lists where they are the same.
fn take_copy(index: &mut Index, merge: &Merge) -> Result<()> {
    let copy = merge.shared_with(index.state())?;
    index.absorb(&copy)?;
    Ok(())
}

/// Whether the index lists these mementos of one of the originals, and its state shows them.
fn is_listed(alloc: Global, index: &Index, original_number: u64, bits: u64) -> Result<bool> {
    let original = original(alloc, ORIGINALS[(original_number % 2) as usize])?;
    let wanted = mementos_of(alloc, bits)?;
    let is_listed = index.list(&original) == wanted.as_slice();
    Ok(is_listed && index.state().shown(&original)? == wanted)
}

/// Whether the index lists what the rule says once all of these were taken.
fn lists(alloc: Global, index: &Index, all: &[Taken]) -> Result<bool> {
    Ok(is_listed(alloc, index, 0, listed(all, 0))? && is_listed(alloc, index, 1, listed(all, 1))?)
}

/// A state that takes all of these in the opposite order.
fn state_of_last_first(alloc: Global, all: &[Taken]) -> Result<State> {
    let mut state = State::new(alloc);
    for taken in all.iter().rev() {
        state.merge(&harvest_of(alloc, *taken)?)?;
    }
    Ok(state)
}

/// Whether the opposite order makes the same state.
fn is_reversible(alloc: Global, index: &Index, all: &[Taken]) -> Result<bool> {
    let other = state_of_last_first(alloc, all)?;
    Ok(other.le(index.state()) && index.state().le(&other))
}

fn harvested(is_whole: bool, revision: u64, mementos: u64) -> Taken {
    Taken {
        archive: 0,
        original: 0,
        is_whole,
        revision,
        mementos,
    }
}

/// One of six harvests of one archive: whole ones and parts below and above them, two of one revision, and a last whole
/// one of nothing.
fn one_of_six(number: u64) -> Taken {
    match number % 6 {
        0 => harvested(true, 5, 1),
        1 => harvested(false, 7, 2),
        2 => harvested(true, 6, 4),
        3 => harvested(false, 4, 1),
        4 => harvested(false, 6, 2),
        _ => harvested(true, 8, 0),
    }
}

/// Four of them, as the digits of a number in base six name them: one may come again.
fn four_of_six(alloc: Global, order: u64) -> Result<Vec<Taken>> {
    let mut all = Vec::new(alloc);
    let mut rest = order;
    for _ in 0..4 {
        all.push(one_of_six(rest))?;
        rest /= 6;
    }
    Ok(all)
}

/// An index that takes all of these, one after the other.
fn index_of(alloc: Global, all: &[Taken]) -> Result<Index> {
    let mut index = Index::new(alloc);
    for taken in all {
        index.absorb(&Merge::Harvest(harvest_of(alloc, *taken)?))?;
    }
    Ok(index)
}

/// One that comes again changes nothing, so that each order of fewer is among these too.
#[test]
fn every_order_of_wholes_and_parts_is_listed(rt: HostRuntime) -> Result<()> {
    let alloc = rt.alloc();
    for order in 0..1_296 {
        let all = four_of_six(alloc, order)?;
        let index = index_of(alloc, &all)?;
        assert!(rt; lists(alloc, &index, &all)?, "in order {order}");
        assert!(rt; is_reversible(alloc, &index, &all)?, "in order {order}");
    }
    Ok(())
}

/// Numbers that are the same in each run.
#[derive(Drop)]
struct Generator {
    seed: u64,
}

impl Generator {
    /// One below a bound.
    fn below(&mut self, bound: u64) -> u64
        requires { 0 < bound }
        ensures { result < bound }
    {
        self.seed = self
            .seed
            .wrapping_mul(6_364_136_223_846_793_005)
            .wrapping_add(1_442_695_040_888_963_407);
        (self.seed >> 33) % bound
    }

    fn taken(&mut self) -> Taken {
        Taken {
            archive: self.below(3),
            original: self.below(2),
            is_whole: self.below(2) == 0,
            revision: self.below(10),
            mementos: self.below(16),
        }
    }
}

/// Some harvest, which is noted.
fn some_harvest(alloc: Global, numbers: &mut Generator, all: &mut Vec<Taken>) -> Result<Harvest> {
    let taken = numbers.taken();
    all.push(taken)?;
    harvest_of(alloc, taken)
}

/// A harvest, or a state of two.
fn some_merge(alloc: Global, numbers: &mut Generator, all: &mut Vec<Taken>) -> Result<Merge> {
    if numbers.below(3) > 0 {
        return Ok(Merge::Harvest(some_harvest(alloc, numbers, all)?));
    }
    let mut state = State::new(alloc);
    for _ in 0..2 {
        state.merge(&some_harvest(alloc, numbers, all)?)?;
    }
    Ok(Merge::State(state))
}

/// Whether a new index lists what the rule says after each of so many merges.
fn walks(alloc: Global, numbers: &mut Generator, merges: u64) -> Result<bool> {
    let mut index = Index::new(alloc);
    let mut all = Vec::new(alloc);
    for _ in 0..merges {
        take_copy(&mut index, &some_merge(alloc, numbers, &mut all)?)?;
        if !lists(alloc, &index, &all)? {
            return Ok(false);
        }
    }
    is_reversible(alloc, &index, &all)
}

/// At the greatest revision little changes, so that most indexes take few merges.
#[test]
fn thousands_of_merges_are_listed(rt: HostRuntime) -> Result<()> {
    let mut numbers = Generator { seed: 7 };
    for (indexes, merges) in [(1, 1_000), (100, 25)] {
        for _ in 0..indexes {
            assert!(rt;
                walks(rt.alloc(), &mut numbers, merges)?,
                "after {merges} merges"
            );
        }
    }
    Ok(())
}

/// Takes a merge, and then shares the lists of another index that took the same.
fn take_beside(alloc: Global, index: &mut Index, merge: &Merge, other: &Index) -> Result<()> {
    index.absorb(merge)?;
    for text in ORIGINALS {
        index.share_list(&original(alloc, text)?, other);
    }
    Ok(())
}

/// Whether two new indexes, of which the second shares the lists of the first, both list what the rule says after each
/// of so many merges.
fn walk_beside(alloc: Global, numbers: &mut Generator, merges: u64) -> Result<bool> {
    let mut first = Index::new(alloc);
    let mut second = Index::new(alloc);
    let mut all = Vec::new(alloc);
    for _ in 0..merges {
        let merge = some_merge(alloc, numbers, &mut all)?;
        take_copy(&mut first, &merge)?;
        take_beside(alloc, &mut second, &merge, &first)?;
        if !lists(alloc, &first, &all)? || !lists(alloc, &second, &all)? {
            return Ok(false);
        }
    }
    Ok(true)
}

#[test]
fn hundreds_of_merges_are_shared(rt: HostRuntime) -> Result<()> {
    let mut numbers = Generator { seed: 11 };
    for index in 0..40 {
        assert!(rt;
            walk_beside(rt.alloc(), &mut numbers, 20)?,
            "at index {index}"
        );
    }
    Ok(())
}
