//! Places between the entries of a state.
ghost use Rattle.std.specs.Prelude.{◌≡◌, IfOk};
ghost use Rattle.delta_parts.specs.PartRule.{is_past, key_of};
ghost use Rattle.harvest_lattice.specs.Lattice.{key_cmp};

use memento_time::{ArchiveName, NoMemory, Original};
use std::cmp::Ordering;

/// Behind the entry of this archive and original.
#[derive(Debug, Drop)]
pub struct Place {
    pub archive: ArchiveName,
    pub original: Original,
}

/// The order of keys.
fn by_key(
    archive: ArchiveName,
    original: &Original,
    other: ArchiveName,
    behind: &Original,
) -> Ordering
    ensures { result ≡ key_cmp (archive, original.now) (other, behind.now) }
{
    match archive.cmp(&other) {
        Ordering::Equal => original.cmp(behind),
        order => order,
    }
}

impl Place {
    /// The place behind the entry of an archive and original.
    pub(crate) fn of(archive: ArchiveName, original: &Original) -> Result<Place, NoMemory>
        ensures { IfOk result (λ place. key_of place ≡ (archive, original.now)) }
    {
        let original = original.try_clone()?;
        Ok(Place { archive, original })
    }

    /// A copy.
    pub fn try_clone(&self) -> Result<Place, NoMemory>
        ensures { IfOk result (λ copy. copy ≡ self.now) }
    {
        let original = self.original.try_clone()?;
        Ok(Place {
            archive: self.archive,
            original,
        })
    }

    /// Whether a key comes behind this place.
    pub fn is_past(&self, archive: ArchiveName, original: &Original) -> bool
        ensures { result ≡ is_past self.now (archive, original.now) }
    {
        by_key(archive, original, self.archive, &self.original) == Ordering::Greater
    }
}
