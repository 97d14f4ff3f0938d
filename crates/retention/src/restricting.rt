//! A state restricted by a service's rule.
ghost use Rattle.std.specs.Prelude.{◌≡◌, ◌∷◌, [], ◌++◌, cond, IfOk, OnOk, map as map_list};
ghost use Rattle.harvest_lattice.specs.Rows.{row_entry};
ghost use Rattle.retention.specs.Restriction.{restrict};
ghost use Rattle.retention.specs.Rules.{is_unlisted, keeps};

use crate::withdrawing::Withdrawn;
use harvest_lattice::{Entry, Row, State};
use memento_time::{ArchiveName, NoMemory, Original};
use original_sets::{Key, OriginalSet};
use std::alloc::Global;

/// The rule of a service: what isn't withdrawn is kept, of originals that are listed or wanted.
#[derive(Clone, Copy)]
pub struct Retention<'a> {
    pub withdrawn: &'a Withdrawn,
    pub listed: &'a OriginalSet,
    pub wanted: &'a OriginalSet,
}

impl<'a> Retention<'a> {
    /// Whether what an archive had of an original is kept.
    pub fn keeps(&self, archive: ArchiveName, original: &Original) -> Result<bool, NoMemory>
        ensures { IfOk result (λ kept. kept
            ≡ keeps self.now.withdrawn.now self.now.listed.now self.now.wanted.now (archive, original.now)) }
    {
        if self.withdrawn.has(archive, original)? {
            return Ok(false);
        }
        let key = Key::new(original)?;
        Ok(self.listed.has(&key) || self.wanted.has(&key))
    }
}

/// The rule of what may be forgotten: what isn't withdrawn, of originals that aren't listed.
#[derive(Clone, Copy)]
pub struct Unlisted<'a> {
    pub withdrawn: &'a Withdrawn,
    pub listed: &'a OriginalSet,
}

impl<'a> Unlisted<'a> {
    /// Whether what an archive had of an original is neither withdrawn nor listed.
    pub fn has(&self, archive: ArchiveName, original: &Original) -> Result<bool, NoMemory>
        ensures { IfOk result (λ has. has ≡ is_unlisted self.now.withdrawn.now self.now.listed.now (archive, original.now)) }
    {
        let key = Key::new(original)?;
        if self.listed.has(&key) {
            return Ok(false);
        }
        let is_withdrawn = self.withdrawn.has(archive, original)?;
        Ok(!is_withdrawn)
    }

    /// The entries of a state that are neither withdrawn nor listed. They share the lists of those of the state.
    pub fn of(&self, alloc: Global, state: &State) -> Result<State, NoMemory>
        ensures { IfOk result (λ others. others
            ≡ restrict (is_unlisted self.now.withdrawn.now self.now.listed.now) state.now) }
    {
        let mut rows = Vec::new(alloc);
        for row in state.rows() {
            let ((archive, original), entry) = row;
            let is_kept = self.has(archive, original)?;
            note(&mut rows, is_kept, archive, original, entry)?;
        }
        match State::of_rows(alloc, rows)? {
            Some(kept) => Ok(kept),
            None => unreachable!(),
        }
    }
}

/// Adds a copy of an entry, if it is kept.
fn note(
    rows: &mut Vec<Row>,
    is_kept: bool,
    archive: ArchiveName,
    original: &Original,
    entry: &Entry,
) -> Result<(), NoMemory>
    ensures { OnOk result (map_list row_entry rows.new.items
        ≡ map_list row_entry rows.old.items ++ cond is_kept (((archive, original.now), entry.now) ∷ []) []) }
{
    if !is_kept {
        return Ok(());
    }
    let copy = original.try_clone()?;
    let kept = entry.try_clone()?;
    rows.push(Row {
        archive,
        original: copy,
        entry: kept,
    })?;
    Ok(())
}

/// The entries of a state that are kept. They share the lists of those of the state, so this takes memory for maps
/// alone. Takes time in the number of the state's entries.
pub fn restricted(alloc: Global, state: &State, rule: &Retention<'_>) -> Result<State, NoMemory>
    ensures { IfOk result (λ kept. kept
        ≡ restrict (keeps rule.now.withdrawn.now rule.now.listed.now rule.now.wanted.now) state.now) }
{
    let mut rows = Vec::new(alloc);
    for row in state.rows() {
        let ((archive, original), entry) = row;
        let is_kept = rule.keeps(archive, original)?;
        note(&mut rows, is_kept, archive, original, entry)?;
    }
    match State::of_rows(alloc, rows)? {
        Some(kept) => Ok(kept),
        None => unreachable!(),
    }
}
