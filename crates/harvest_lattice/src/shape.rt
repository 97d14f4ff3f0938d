//! What an entry keeps.
ghost use Rattle.std.specs.Prelude.{◌≡◌, [], IsTrue, IfOk, IfErr, OnOk, OnErr};
ghost use Rattle.std.specs.Arc.{arc_value};
ghost use Rattle.harvest_lattice.specs.Lattice.{join_kept};
ghost use Rattle.harvest_lattice.specs.Knowledge.{mementos_of};
ghost use Rattle.harvest_lattice.specs.Parts.{kept_in};
ghost use Rattle.harvest_lattice.specs.Shapes.{kept_by, CanTake};

use crate::mixed::Mixed;
use crate::part::Part;
use crate::reading::Reading;
use crate::sequence::Sequence;
use memento_sets::Mementos;
use memento_time::NoMemory;
use std::alloc::Global;
use std::sync::Arc;

/// What an entry keeps. A single revision, whole or not, which most entries have, takes no memory in addition to its
/// list: the entry has three words.
#[derive(Debug, Drop)]
pub enum Shape {
    One(bool, Part),
    Mixed(Arc<Mixed>),
}

const _: () = prove!(size_of::<Shape>() == 24);

impl Shape {
    pub fn of(alloc: Global, sequence: Sequence) -> Result<Shape, NoMemory>
        ensures { IfOk result (λ shape. kept_by shape ≡ sequence) }
    {
        if sequence.is_alone() {
            let (is_whole, first) = sequence.into_only();
            return Ok(Shape::One(is_whole, first));
        }
        let mixed = Mixed::of(sequence)?;
        let mixed = Arc::new(alloc, mixed)?;
        Ok(Shape::Mixed(mixed))
    }

    pub fn reading(&self) -> Reading<'_>
        ensures { result ≡ kept_by self.now }
    {
        match self {
            Shape::One(is_whole, first) => Reading::of(*is_whole, first, &[]),
            Shape::Mixed(mixed) => mixed.reading(),
        }
    }

    /// The one revision, if there is just one, and whether it is whole.
    pub fn into_one(self) -> Result<(bool, Part), Shape>
        ensures one { IfOk result (λ one. kept_in one.0 one.1 [] ≡ kept_by self) }
        ensures several { IfErr result (λ shape. kept_by shape ≡ kept_by self) }
    {
        match self {
            Shape::One(is_whole, part) => Ok((is_whole, part)),
            Shape::Mixed(mixed) => Err(Shape::Mixed(mixed)),
        }
    }

    /// A copy of the revisions that shares the lists.
    pub fn sequence(&self) -> Result<Sequence, NoMemory>
        ensures { IfOk result (λ sequence. sequence ≡ kept_by self.now) }
    {
        match self {
            Shape::One(is_whole, first) => {
                let first = first.try_clone()?;
                Ok(Sequence::of_part(*is_whole, first))
            }
            Shape::Mixed(mixed) => mixed.sequence(),
        }
    }

    pub fn shown(&self) -> Result<Arc<Mementos>, NoMemory>
        ensures { IfOk result (λ list. arc_value list ≡ mementos_of (kept_by self.now)) }
    {
        match self {
            Shape::One(_, first) => first.share(),
            Shape::Mixed(mixed) => mixed.shown(),
        }
    }

    /// A copy that shares the lists.
    pub fn try_clone(&self) -> Result<Shape, NoMemory>
        ensures { IfOk result (λ copy. kept_by copy ≡ kept_by self.now) }
    {
        match self {
            Shape::One(is_whole, first) => {
                let first = first.try_clone()?;
                Ok(Shape::One(*is_whole, first))
            }
            Shape::Mixed(mixed) => {
                let mixed = Arc::try_clone(mixed)?;
                Ok(Shape::Mixed(mixed))
            }
        }
    }

    /// Whether a part that comes has the only revision here, or replaces none of several.
    pub fn can_take(&self, is_whole: bool, part: &Part) -> bool
        ensures { IsTrue result → CanTake self.now is_whole part.now }
    {
        match self {
            Shape::One(_, first) => part.revision() == first.revision(),
            Shape::Mixed(mixed) => {
                let coming = Reading::of(is_whole, part, &[]);
                mixed.reading().stays_with(&coming)
            }
        }
    }

    /// Joins such a part. If memory is refused, nothing changes.
    pub fn take(&mut self, is_whole: bool, part: Part) -> Result<(), NoMemory>
        requires { CanTake self.old is_whole part }
        ensures ok { OnOk result (kept_by self.new ≡ join_kept (kept_by self.old) (kept_in is_whole part [])) }
        ensures err { OnErr result (kept_by self.new ≡ kept_by self.old) }
    {
        match self {
            Shape::One(mark, first) => {
                first.absorb(part.into_set())?;
                *mark |= is_whole;
                Ok(())
            }
            Shape::Mixed(mixed) => Arc::make_mut(mixed)?.join(is_whole, part),
        }
    }
}
