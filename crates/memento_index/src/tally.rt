//! Mementos, each with the number of archives that show it.
ghost use Rattle.std.specs.Prelude.{◌≡◌, ◌+◌, ◌<◌, ◌≤◌, [], ◌∷◌, ◌++◌, IfNone, IfSome, IfOk, length, map as map_list};
ghost use Rattle.std.specs.Prelude.{option_to_list, IsTrue, ◌==◌};
ghost use Rattle.std.specs.Arc.{arc_value};
ghost use Rattle.std.specs.List.{list_all};
ghost use Rattle.memento_sets.specs.Sets as set;
ghost use Rattle.memento_index.specs.Counts.{mementos_of, AreBelow, IsTally};
ghost use Rattle.memento_index.specs.Tallies.{each_once};

use crate::counted::Counted;
use memento_sets::{Mementos, are_same};
use memento_time::{Memento, NoMemory, packed};
use std::alloc::Global;
use std::marker::Model;
use std::sync::Arc;

/// Mementos and their counts, in two columns, so that the mementos can be borrowed as one list.
#[derive(Debug, Drop)]
pub struct Tally {
    mementos: Vec<Memento>,
    counts: Vec<u64>,
}

impl Model for Tally {
    ghost use Rattle.std.specs.Prelude.{◌≡◌, min};
    ghost use Rattle.std.specs.Vec.{vec_len, vec_capacity};
    ghost use Rattle.memento_index.specs.Tallies.{Tallied, coded_tallied, beside};

    ghost Value = { Tallied };

    ghost coded = { coded_tallied };

    ghost view = { λ t. record {
      entries = beside t.mementos.items t.counts.items;
      room = min (vec_capacity t.mementos) (vec_capacity t.counts);
    } };

    ghost invariant = { λ t. vec_len t.mementos ≡ vec_len t.counts };
}

impl Tally {
    /// No mementos. Takes no memory.
    pub fn new(alloc: Global) -> Tally
        ensures { result.entries ≡ [] }
    {
        Tally {
            mementos: Vec::new(alloc),
            counts: Vec::new(alloc),
        }
    }

    /// The mementos, in order.
    pub fn mementos(&self) -> &[Memento]
        ensures { result.now ≡ mementos_of self.now.entries }
    {
        &self.mementos
    }

    /// Whether these are exactly the mementos, each with the count 1.
    pub fn has_just(&self, mementos: &[Memento]) -> bool
        ensures { IsTrue result → self.now.entries ≡ each_once mementos.now }
    {
        are_same(&self.mementos, mementos) && are_ones(&self.counts)
    }

    /// The mementos as a set, if each has the count 1. `None` also if memory is refused.
    pub fn to_set(&self) -> Option<Arc<Mementos>>
        ensures { IsTally self.now.entries
            → IfSome result (λ list. each_once (set.items (arc_value list)) ≡ self.now.entries) }
    {
        if !are_ones(&self.counts) {
            return None;
        }
        set_of(*self.mementos.allocator(), &self.mementos).ok()
    }

    /// Makes room for more mementos, and returns the length that the list may then have.
    pub fn reserve(&mut self, more: usize) -> Result<usize, NoMemory>
        ensures entries { self.new.entries ≡ self.old.entries }
        ensures room { self.old.room ≤ self.new.room }
        ensures made { IfOk result (λ most. (most ≡ length self.new.entries + more) × (most ≤ self.new.room)) }
    {
        self.mementos.reserve(more)?;
        self.counts.reserve(more)?;
        Ok(self.mementos.len() + more)
    }

    /// A copy whose addresses are packed.
    pub fn packed(&self) -> Result<Tally, NoMemory>
        ensures { IfOk result (λ copy. copy.entries ≡ self.now.entries) }
    {
        let mementos = packed(*self.mementos.allocator(), &self.mementos)?;
        let counts = self.counts.clone()?;
        Ok(Tally { mementos, counts })
    }

    /// Adds a memento at the end, where there is room for it.
    pub fn push(&mut self, counted: Counted)
        requires { length self.old.entries < self.old.room }
        ensures entries { self.new.entries ≡ self.old.entries ++ counted ∷ [] }
        ensures room { self.old.room ≤ self.new.room }
    {
        self.mementos.push(counted.memento).unwrap();
        self.counts.push(counted.count).unwrap();
    }

    /// Whether all mementos are less than this one. In a list in order, that is so if the last one is less.
    pub fn is_below(&self, memento: &Memento) -> bool
        ensures { IsTrue result → IsTally self.now.entries → AreBelow memento.now self.now.entries }
    {
        match self.mementos.last() {
            Some(last) => last.cmp(memento).is_lt(),
            None => true,
        }
    }

    /// Takes the last memento out.
    pub fn pop(&mut self) -> Option<Counted>
        ensures entries { self.old.entries ≡ self.new.entries ++ option_to_list result }
        ensures none { IfNone result (self.new.entries ≡ []) }
        ensures spare { IfSome result (λ _. length self.new.entries < self.new.room) }
        ensures room { self.old.room ≤ self.new.room }
    {
        let memento = self.mementos.pop()?;
        let count = self.counts.pop()?;
        Some(Counted { memento, count })
    }
}

fn are_ones(counts: &[u64]) -> bool
    ensures { result ≡ list_all (λ n. n == 1) counts.now }
{
    counts.iter().all(|count| *count == 1)
}

/// A set of these mementos, in memory of its own.
fn set_of(alloc: Global, mementos: &[Memento]) -> Result<Arc<Mementos>, NoMemory>
    ensures { IfOk result (λ list. arc_value list ≡ set.from_list mementos.now) }
{
    let copies = Vec::from_clones(alloc, mementos)?;
    Ok(Arc::new(alloc, Mementos::of(copies))?)
}
