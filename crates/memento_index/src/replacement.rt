//! How an entry that comes changes what its archive shows.
ghost use Rattle.std.specs.Prelude.{◌≡◌, IsTrue, IfOk};
ghost use Rattle.std.specs.Arc.{arc_value};
ghost use Rattle.memento_sets.specs.Sets as set;
ghost use Rattle.harvest_lattice.specs.Parts.{AreOfOne};
ghost use Rattle.harvest_lattice.specs.Rows.{row_entry};
ghost use Rattle.memento_index.specs.Lists.{shared_mementos, IsNewsAt, IsReplaced};

use harvest_lattice::{Entry, Row, State};
use memento_sets::Mementos;
use memento_time::{Memento, NoMemory};
use std::sync::Arc;

/// Of what an archive shows of an original, the mementos `after` replace those `before`. There are none `before` if
/// they are added to what the archive shows. The number of revisions in which a memento stands makes no difference.
/// What an entry shows is shared, not copied.
#[derive(Debug, Drop)]
pub struct Replacement {
    before: Option<Arc<Mementos>>,
    after: Arc<Mementos>,
}

impl Replacement {
    /// What a row replaces of what stands at its key.
    pub fn by(state: &State, row: &Row) -> Result<Replacement, NoMemory>
        requires { IsNewsAt state.now (row_entry row.now) }
        ensures { IfOk result
            (λ made. IsReplaced state.now (row_entry row.now) (shared_mementos made.before)
            (set.items (arc_value made.after))) }
    {
        let entry = row.entry();
        let Some(standing) = state.entry(row.archive(), row.original()) else {
            return Ok(Replacement {
                before: None,
                after: entry.shown()?,
            });
        };
        if are_of_one(standing, entry) {
            return Ok(Replacement {
                before: None,
                after: entry.shown()?,
            });
        }
        Ok(Replacement {
            before: Some(standing.shown()?),
            after: standing.shown_with(entry)?,
        })
    }

    /// What comes.
    pub fn after(&self) -> &[Memento]
        ensures { result.now ≡ set.items (arc_value self.now.after) }
    {
        self.after.as_slice()
    }

    /// What goes, unless it comes again.
    pub fn before(&self) -> &[Memento]
        ensures { result.now ≡ shared_mementos self.now.before }
    {
        match &self.before {
            Some(list) => list.as_slice(),
            None => &[],
        }
    }

    /// What comes, as a list to be shared.
    pub fn into_after(self) -> Arc<Mementos>
        ensures { result ≡ self.after }
    {
        self.after
    }
}

/// Whether both entries have one revision, and it is the same.
fn are_of_one(left: &Entry, right: &Entry) -> bool
    ensures { IsTrue result → AreOfOne left.now right.now }
{
    if left.revisions() != 1 || right.revisions() != 1 {
        return false;
    }
    left.revision(0) == right.revision(0)
}
