//! How young what is known of each original is, and how much of it there is.

use crate::amounts::{Amount, amount_of_entry, grown_by};
use harvest_lattice::{Entry, State};
use memento_time::NoMemory;
use original_sets::Key;
use std::alloc::Global;
use std::collections::HashMap;
use std::hash::RandomState;

/// Of an original: its greatest revision in any archive, and how much is known of it.
#[derive(Clone, Copy)]
pub(crate) struct Age {
    pub(crate) newest: u64,
    pub(crate) amount: Amount,
}

impl Age {
    /// Nothing is known.
    const NONE: Age = Age {
        newest: 0,
        amount: Amount::NONE,
    };
}

/// The age of each original of a state.
#[derive(Drop)]
pub(crate) struct Ages {
    ages: HashMap<Key, Age, RandomState>,
}

/// The greatest revision of an entry.
fn newest(entry: &Entry) -> u64 {
    let revisions = entry.revisions();
    if revisions == 0 {
        return 0;
    }
    entry.revision(revisions - 1)
}

impl Ages {
    /// The ages of the originals of a state. The keys of hashes are to be secret where readers choose originals.
    pub(crate) fn of(alloc: Global, state: &State, keys: RandomState) -> Result<Ages, NoMemory> {
        let mut ages = Ages {
            ages: HashMap::with_capacity_and_hasher(alloc, 0, keys)?,
        };
        for row in state.rows() {
            let ((_, original), entry) = row;
            ages.note(Key::new(original)?, entry)?;
        }
        Ok(ages)
    }

    /// Adds an entry of an original.
    fn note(&mut self, original: Key, entry: &Entry) -> Result<(), NoMemory> {
        let before = self.age(&original).unwrap_or(Age::NONE);
        let age = Age {
            newest: before.newest.max(newest(entry)),
            amount: grown_by(before.amount, entry)?,
        };
        self.ages.insert(original, age)?;
        Ok(())
    }

    /// The age of an original, if the state has something of it.
    pub(crate) fn age(&self, original: &Key) -> Option<Age> {
        self.ages.get(original).copied()
    }

    /// What is left once the original has its place, if its greatest revision is this second, and so much is left.
    pub(crate) fn left_with(&self, original: &Key, second: u64, left: Amount) -> Option<Amount> {
        let age = self.age(original)?;
        if age.newest != second {
            return None;
        }
        left.minus(age.amount)
    }

    /// For each entry of the state of these ages, in order: the greatest revision of its original, and how much the
    /// entry is.
    pub(crate) fn of_entries(&self, alloc: Global, state: &State) -> Result<Vec<Age>, NoMemory> {
        let mut of_entries = Vec::with_capacity(alloc, state.len())?;
        for row in state.rows() {
            let ((_, original), entry) = row;
            if let Some(age) = self.age(&Key::new(original)?) {
                let amount = amount_of_entry(entry)?;
                of_entries.push(Age {
                    newest: age.newest,
                    amount,
                })?;
            }
        }
        Ok(of_entries)
    }
}
