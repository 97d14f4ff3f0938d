//! The revisions of an entry in order.
ghost use Rattle.std.specs.Prelude.{◌≡◌, ◌↔◌, ◌∷◌, [], IsTrue, IfOk, OnOk, OnErr, Some};
ghost use Rattle.std.specs.Arc.{arc_value};
ghost use Rattle.std.specs.FinMap as map;
ghost use Rattle.harvest_lattice.specs.Lattice.{kept_of, join_kept};
ghost use Rattle.harvest_lattice.specs.Knowledge.{mementos_of};
ghost use Rattle.harvest_lattice.specs.Parts.{PartsRise, kept_in};

use crate::later::Later;
use crate::ordered::widest;
use crate::part::Part;
use crate::reading::{Reading, is_not_before};
use memento_sets::Mementos;
use memento_time::NoMemory;
use std::alloc::{AllocError, Global};
use std::cmp::Ordering;
use std::marker::Model;
use std::sync::Arc;

/// Revisions with their mementos, the least one whole or not.
#[derive(Debug, Drop)]
pub struct Sequence {
    is_whole: bool,
    first: Part,
    later: Later,
}

impl Model for Sequence {
    ghost use Rattle.std.specs.Prelude.{◌∷◌};
    ghost use Rattle.harvest_lattice.specs.Lattice.{Kept, coded_kept};
    ghost use Rattle.harvest_lattice.specs.Parts.{PartsRise, kept_in};

    ghost Value = { Kept };

    ghost coded = { coded_kept };

    ghost view = { λ s. kept_in s.is_whole s.first s.later };

    ghost invariant = { λ s. PartsRise (s.first ∷ s.later) };
}

impl Sequence {
    /// A single revision.
    pub fn of_part(is_whole: bool, first: Part) -> Sequence
        ensures { result ≡ kept_in is_whole first [] }
    {
        Sequence {
            is_whole,
            first,
            later: Later::none(),
        }
    }

    /// These revisions, if there are any.
    pub fn of(
        alloc: Global,
        is_whole: bool,
        mut parts: Vec<Part>,
    ) -> Result<Option<Sequence>, NoMemory>
        requires { PartsRise parts.items }
        ensures { IfOk result (λ sequence. sequence ≡ kept_of is_whole (map.from_entries parts.items)) }
    {
        if parts.is_empty() {
            return Ok(None);
        }
        let first = parts.remove(0);
        let later = Later::of(alloc, parts)?;
        Ok(Some(Sequence {
            is_whole,
            first,
            later,
        }))
    }

    pub fn reading(&self) -> Reading<'_>
        ensures { result ≡ self.now }
    {
        Reading::of(self.is_whole, &self.first, self.later.as_slice())
    }

    pub fn is_alone(&self) -> bool
        ensures { IsTrue result ↔ (map.len self.now.revisions ≡ 1) }
    {
        self.later.is_empty()
    }

    /// Whether the only revision is whole, and its part.
    pub fn into_only(self) -> (bool, Part)
        requires { map.len self.revisions ≡ 1 }
        ensures { kept_in result.0 result.1 [] ≡ self }
    {
        (self.is_whole, self.first)
    }

    /// The mementos of all revisions, each once. If one revision has all of them, its list is shared, not copied;
    /// otherwise they are packed, so that none of them keeps a revision's buffer alive.
    pub fn shown(&self) -> Result<Arc<Mementos>, NoMemory>
        ensures { IfOk result (λ list. arc_value list ≡ mementos_of self.now) }
    {
        if let Some(part) = widest(&self.first, self.later.as_slice()) {
            return part.share();
        }
        let alloc = self.first.set().allocator();
        let mut all = Vec::new(alloc);
        self.reading().append_all(&mut all)?;
        let union = Mementos::of(all).packed()?;
        let list = Arc::new(alloc, union)?;
        Ok(list)
    }

    /// Joins one revision. If memory is refused, nothing changes.
    pub fn join(&mut self, is_whole: bool, part: Part) -> Result<(), NoMemory>
        ensures ok { OnOk result (self.new ≡ join_kept self.old (kept_in is_whole part [])) }
        ensures err { OnErr result (self.new ≡ self.old) }
    {
        if !is_not_before(self.reading().whole(), part.revision()) {
            return Ok(());
        }
        match part.revision().cmp(&self.first.revision()) {
            Ordering::Less => {
                let next = self.first.try_clone()?;
                self.later.insert(part.set().allocator(), 0, next)?;
                self.first = part;
                self.is_whole = is_whole;
                Ok(())
            }
            Ordering::Equal => {
                self.first.absorb(part.into_set())?;
                self.is_whole |= is_whole;
                Ok(())
            }
            Ordering::Greater if is_whole => {
                let latest = self.later.replace_older(part)?;
                self.first = latest;
                self.is_whole = true;
                Ok(())
            }
            Ordering::Greater => self.later.put(part.set().allocator(), &self.first, part),
        }
    }
}

impl Clone for Sequence {
    ghost is_clone = { λ sequence copy. copy ≡ sequence };

    /// The lists are shared.
    fn clone(&self) -> Result<Sequence, AllocError> {
        let first = self.first.clone()?;
        let later = self.later.clone()?;
        Ok(Sequence {
            is_whole: self.is_whole,
            first,
            later,
        })
    }
}
