//! The lines of as many entries as fit.
ghost use Rattle.std.specs.Prelude.{◌≡◌, ◌∷◌, [], ◌<◌, ◌+◌, ◌++◌, length, true, false, option_copied, IfOk};
ghost use Rattle.std.specs.FinMap as map;
ghost use Rattle.replica_exchange.specs.StateText.{entry_text, IsEntry};
ghost use Rattle.delta_parts.specs.Filling.{HasLines, IsFilled, rows_from};

use crate::place::Place;
use harvest_lattice::{Entry, Rows, State};
use memento_time::{ArchiveName, NoMemory, Original};
use replica_exchange::{Stamped, write_entry};
use std::alloc::{AllocError, Global};

/// The lines of entries, and how many entries these are.
#[derive(Debug, Drop)]
pub(crate) struct Lines {
    pub(crate) text: Vec<u8>,
    pub(crate) count: u64,
}

impl Lines {
    /// No lines. Takes no memory.
    pub(crate) fn new(alloc: Global) -> Lines
        ensures text { result.text.items ≡ [] }
        ensures count { result.count ≡ 0 }
    {
        Lines {
            text: Vec::new(alloc),
            count: 0,
        }
    }

    /// Adds the lines of an entry, unless others stand here and the room isn't enough for all. Returns whether it did.
    fn add(
        &mut self,
        archive: ArchiveName,
        original: &Original,
        entry: &Entry,
        room: usize,
    ) -> Result<bool, AllocError>
        ensures written { IfOk result (λ is_added. is_added ≡ true
            → self.new.text.items ≡ self.old.text.items ++ entry_text ((archive, original.now), entry.now)) }
        ensures fits { IfOk result (λ is_added. is_added ≡ true → IsEntry ((archive, original.now), entry.now)) }
        ensures counted { IfOk result (λ is_added. is_added ≡ true → self.new.count ≡ self.old.count + 1) }
        ensures left { IfOk result (λ is_added. is_added ≡ false → (self.new.text.items ≡ self.old.text.items)
            × (self.new.count ≡ self.old.count) × (0 < length self.old.text.items)) }
    {
        // No memory has room for more entries than a 64-bit number counts.
        let Some(count) = self.count.checked_add(1) else {
            return Err(AllocError);
        };
        let before = self.text.len();
        write_entry(&mut self.text, archive, original, entry)?;
        if before > 0 && self.text.len() > room {
            self.text.truncate(before);
            return Ok(false);
        }
        self.count = count;
        Ok(true)
    }

    /// Adds the lines of an entry, if its stamp is above the start. Returns whether that is done.
    fn take(
        &mut self,
        stamped: &Stamped,
        start: u64,
        room: usize,
        archive: ArchiveName,
        original: &Original,
        entry: &Entry,
    ) -> Result<bool, AllocError>
        ensures taken { IfOk result (λ is_taken. is_taken ≡ true
            → HasLines stamped.now start (((archive, original.now), entry.now) ∷ []) self.old.text.items
            self.new.text.items self.old.count self.new.count) }
        ensures left { IfOk result (λ is_taken. is_taken ≡ false → (self.new.text.items ≡ self.old.text.items)
            × (self.new.count ≡ self.old.count) × (0 < length self.old.text.items)) }
    {
        if !stamped.is_above(archive, original, start) {
            return Ok(true);
        }
        self.add(archive, original, entry, room)
    }

    /// Adds the lines of those rows that have a stamp above the start, as many as the room is enough for, the first one
    /// in any case. Returns behind which place rows are left; `None` if none is.
    pub(crate) fn fill(
        &mut self,
        rows: Rows<'_>,
        stamped: &Stamped,
        start: u64,
        room: usize,
    ) -> Result<Option<Place>, NoMemory>
        requires text { self.old.text.items ≡ [] }
        requires count { self.old.count ≡ 0 }
        ensures { IfOk result (λ until.
            IsFilled stamped.now start rows.entry until self.new.text.items self.new.count) }
    {
        let mut last: Option<(ArchiveName, &Original)> = None;
        for ((archive, original), entry) in rows {
            if !self.take(stamped, start, room, archive, original, entry)? {
                return match &last {
                    Some((archive, original)) => Ok(Some(Place::of(*archive, original)?)),
                    None => unreachable!(),
                };
            }
            last = Some((archive, original));
        }
        Ok(None)
    }
}

/// The rows of a state behind a place, or all of them.
pub(crate) fn rows_from<'a>(state: &'a State, behind: Option<&Place>) -> Rows<'a>
    ensures { result ≡ rows_from (option_copied behind.entry) (map.entries state.now) }
{
    match behind {
        Some(place) => state.rows_behind(place.archive, &place.original),
        None => state.rows(),
    }
}
