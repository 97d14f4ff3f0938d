//! Reads an entry.
ghost use Rattle.std.specs.Prelude.{◌≡◌, ◌↔◌, ◌<◌, ◌-◌, ◌∷◌, ◌++◌, [], IsTrue, IfOk, OnOk, Some, slice_get, option_copied};
ghost use Rattle.std.specs.List.{All};
ghost use Rattle.std.specs.FinMap as map;
ghost use Rattle.memento_sets.specs.Sets as set;
ghost use Rattle.harvest_lattice.specs.Lattice.{whole, held, not_before, IsNoLater, KeptAtMost};
ghost use Rattle.harvest_lattice.specs.Knowledge.{items_of};
ghost use Rattle.harvest_lattice.specs.Lacks.{lack, lacking};
ghost use Rattle.harvest_lattice.specs.Parts.{PartsRise, kept_in, PartWithin, AllStay, found_set, current};

use crate::ordered::{append_copies, append_parts, find};
use crate::part::Part;
use memento_time::{Memento, NoMemory};
use std::alloc::Global;
use std::marker::Model;

/// What an entry has, borrowed: its least revision, whether that is a whole one, and the later ones.
#[derive(Drop)]
pub struct Reading<'a> {
    is_whole: bool,
    first: &'a Part,
    later: &'a [Part],
}

impl<'a> Model for Reading<'a> {
    ghost use Rattle.std.specs.Prelude.{◌∷◌};
    ghost use Rattle.harvest_lattice.specs.Lattice.{Kept, coded_kept};
    ghost use Rattle.harvest_lattice.specs.Parts.{PartsRise, kept_in};

    ghost Value = { Kept };

    ghost coded = { coded_kept };

    ghost view = { λ r. kept_in r.is_whole r.first.now r.later.now };

    ghost invariant = { λ r. PartsRise (r.first.now ∷ r.later.now) };
}

impl<'a> Reading<'a> {
    pub fn of(is_whole: bool, first: &'a Part, later: &'a [Part]) -> Reading<'a>
        requires { PartsRise (first.now ∷ later.now) }
        ensures { result ≡ kept_in is_whole first.now later.now }
    {
        Reading {
            is_whole,
            first,
            later,
        }
    }

    pub fn allocator(&self) -> Global {
        self.first.set().allocator()
    }

    pub fn whole(&self) -> Option<u64>
        ensures { result ≡ whole self.now }
    {
        if self.is_whole {
            Some(self.first.revision())
        } else {
            None
        }
    }

    pub fn revisions(&self) -> usize
        ensures { result ≡ map.len self.now.revisions }
    {
        self.later.len() + 1
    }

    pub fn part(&self, k: usize) -> &'a Part
        requires { k < map.len self.now.revisions }
        ensures { slice_get (map.entries self.now.revisions) k ≡ Some result.now }
    {
        if k == 0 {
            self.first
        } else {
            &self.later[k - 1]
        }
    }

    /// The greatest revision.
    pub fn last(&self) -> &'a Part
        ensures { slice_get (map.entries self.now.revisions) (map.len self.now.revisions - 1) ≡ Some result.now }
    {
        match self.later.last() {
            Some(part) => part,
            None => self.first,
        }
    }

    /// Appends copies of the mementos of each revision. After an error, some of them may be in the list.
    pub fn append_all(&self, list: &mut Vec<Memento>) -> Result<(), NoMemory>
        ensures { OnOk result (list.new.items ≡ list.old.items ++ items_of (map.entries self.now.revisions)) }
    {
        append_copies(list, self.first.mementos())?;
        append_parts(list, self.later)
    }

    /// What is kept of a revision.
    fn at(&self, revision: u64) -> Option<&'a Part>
        ensures { found_set (option_copied result) ≡ held self.now revision }
    {
        if self.first.revision() == revision {
            return Some(self.first);
        }
        find(self.later, revision)
    }

    /// Whether a revision is older than the whole one, or is here with each of its mementos.
    fn covers(&self, part: &Part) -> bool
        ensures { IsTrue result ↔ PartWithin self.now part.now }
    {
        if !is_not_before(self.whole(), part.revision()) {
            return true;
        }
        match self.at(part.revision()) {
            Some(here) => part.set().is_subset(here.set()),
            None => false,
        }
    }

    fn covers_all(&self, parts: &[Part]) -> bool
        ensures { IsTrue result ↔ All (PartWithin self.now) parts.now }
    {
        for part in parts {
            if !self.covers(part) {
                return false;
            }
        }
        true
    }

    pub fn le(&self, other: &Reading<'_>) -> bool
        ensures { IsTrue result ↔ KeptAtMost self.now other.now }
    {
        if !is_no_later(self.whole(), other.whole()) {
            return false;
        }
        if !other.covers(self.first) {
            return false;
        }
        other.covers_all(self.later)
    }

    /// Whether no revision of either is older than the other's whole one.
    pub fn stays_with(&self, other: &Reading<'_>) -> bool
        ensures { IsTrue result → AllStay self.now other.now }
    {
        if !is_not_before(other.whole(), self.first.revision()) {
            return false;
        }
        is_not_before(self.whole(), other.first.revision())
    }

    /// The revisions that aren't older than a whole one.
    pub fn current(&self, whole: Option<u64>) -> Result<Vec<Part>, NoMemory>
        ensures { IfOk result (λ parts. parts.items ≡ current whole (map.entries self.now.revisions)) }
    {
        let mut parts = Vec::new(self.allocator());
        for k in 0..self.revisions() {
            push_current(&mut parts, whole, self.part(k))?;
        }
        Ok(parts)
    }

    /// The revisions of another entry that aren't older than the whole one here, each with the mementos that are
    /// lacking here.
    pub fn lacking(&self, other: &Reading<'_>) -> Result<Vec<Part>, NoMemory>
        ensures { IfOk result (λ parts. parts.items ≡ lacking self.now (map.entries other.now.revisions)) }
    {
        let mut parts = Vec::new(other.allocator());
        self.push_lack(&mut parts, other.first)?;
        self.push_lacks(&mut parts, other.later)?;
        Ok(parts)
    }

    /// Appends what is lacking here of a revision, unless the revision is older than the whole one.
    fn push_lack(&self, parts: &mut Vec<Part>, part: &Part) -> Result<(), NoMemory>
        ensures { OnOk result (parts.new.items ≡ parts.old.items ++ lacking self.now (part.now ∷ [])) }
    {
        if is_not_before(self.whole(), part.revision()) {
            parts.push(self.lack(part)?)?;
        }
        Ok(())
    }

    pub fn lack(&self, part: &Part) -> Result<Part, NoMemory>
        ensures { IfOk result (λ new. new ≡ (part.now.0, lack (held self.now part.now.0) part.now.1)) }
    {
        match self.at(part.revision()) {
            Some(here) => {
                let rest = part.set().without(here.set())?;
                Part::new(part.revision(), rest)
            }
            None => part.try_clone(),
        }
    }

    fn push_lacks(&self, parts: &mut Vec<Part>, more: &[Part]) -> Result<(), NoMemory>
        ensures { OnOk result (parts.new.items ≡ parts.old.items ++ lacking self.now more.now) }
    {
        for part in more {
            self.push_lack(parts, part)?;
        }
        Ok(())
    }
}

pub(crate) fn is_not_before(whole: Option<u64>, revision: u64) -> bool
    ensures { result ≡ not_before whole revision }
{
    match whole {
        Some(least) => least <= revision,
        None => true,
    }
}

fn is_no_later(left: Option<u64>, right: Option<u64>) -> bool
    ensures { IsTrue result ↔ IsNoLater left right }
{
    match (left, right) {
        (None, _) => true,
        (Some(_), None) => false,
        (Some(left), Some(right)) => left <= right,
    }
}

/// Appends a copy of a part, unless the part is older than a whole one.
fn push_current(parts: &mut Vec<Part>, whole: Option<u64>, part: &Part) -> Result<(), NoMemory>
    ensures { OnOk result (parts.new.items ≡ parts.old.items ++ current whole (part.now ∷ [])) }
{
    if is_not_before(whole, part.revision()) {
        parts.push(part.try_clone()?)?;
    }
    Ok(())
}
