//! Several revisions in one entry.
ghost use Rattle.std.specs.Prelude.{◌≡◌, [], IfOk, OnOk, OnErr};
ghost use Rattle.std.specs.Arc.{arc_value};
ghost use Rattle.harvest_lattice.specs.Lattice.{join_kept};
ghost use Rattle.harvest_lattice.specs.Knowledge.{mementos_of};
ghost use Rattle.harvest_lattice.specs.Parts.{AllStay, kept_in};

use crate::part::{Part, united};
use crate::reading::Reading;
use crate::sequence::Sequence;
use memento_sets::Mementos;
use memento_time::NoMemory;
use std::alloc::AllocError;
use std::marker::Model;
use std::sync::Arc;

/// Revisions in order, with the union of their mementos kept ready.
#[derive(Debug, Drop)]
pub struct Mixed {
    sequence: Sequence,
    shown: Arc<Mementos>,
}

impl Model for Mixed {
    ghost use Rattle.std.specs.Prelude.{◌≡◌};
    ghost use Rattle.std.specs.Arc.{arc_value};
    ghost use Rattle.harvest_lattice.specs.Lattice.{Kept, coded_kept};
    ghost use Rattle.harvest_lattice.specs.Knowledge.{mementos_of};

    ghost Value = { Kept };

    ghost coded = { coded_kept };

    ghost view = { λ m. m.sequence };

    ghost invariant = { λ m. arc_value m.shown ≡ mementos_of m.sequence };
}

impl Mixed {
    pub fn of(sequence: Sequence) -> Result<Mixed, NoMemory>
        ensures { IfOk result (λ mixed. mixed ≡ sequence) }
    {
        let shown = sequence.shown()?;
        Ok(Mixed { sequence, shown })
    }

    pub fn reading(&self) -> Reading<'_>
        ensures { result ≡ self.now }
    {
        self.sequence.reading()
    }

    /// A copy of the revisions that shares the lists.
    pub fn sequence(&self) -> Result<Sequence, NoMemory>
        ensures { IfOk result (λ sequence. sequence ≡ self.now) }
    {
        let sequence = self.sequence.clone()?;
        Ok(sequence)
    }

    /// The mementos of all revisions, shared, not copied.
    pub fn shown(&self) -> Result<Arc<Mementos>, NoMemory>
        ensures { IfOk result (λ list. arc_value list ≡ mementos_of self.now) }
    {
        let list = Arc::try_clone(&self.shown)?;
        Ok(list)
    }

    /// Joins a revision that replaces none of the others. If memory is refused, nothing changes.
    pub fn join(&mut self, is_whole: bool, part: Part) -> Result<(), NoMemory>
        requires { AllStay self.old (kept_in is_whole part []) }
        ensures ok { OnOk result (self.new ≡ join_kept self.old (kept_in is_whole part [])) }
        ensures err { OnErr result (self.new ≡ self.old) }
    {
        let shown = united(&self.shown, &part.share()?)?;
        self.sequence.join(is_whole, part)?;
        self.shown = shown;
        Ok(())
    }
}

impl Clone for Mixed {
    ghost is_clone = { λ mixed copy. copy ≡ mixed };

    fn clone(&self) -> Result<Mixed, AllocError> {
        let sequence = self.sequence.clone()?;
        let shown = Arc::try_clone(&self.shown)?;
        Ok(Mixed { sequence, shown })
    }
}
