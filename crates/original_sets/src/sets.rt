//! Sets of originals.
ghost use Rattle.std.specs.Prelude.{◌≡◌, ℕ, List, [], ◌||◌, bytes_eq, not, IfOk, OnOk, OnErr};
ghost use Rattle.original_sets.specs.Sets.{stands};

use crate::keys::Key;
use memento_time::{NoMemory, Original};
use std::alloc::Global;
use std::collections::HashSet;
use std::hash::RandomState;
use std::marker::Model;

/// A set of originals, which shares their texts.
#[derive(Drop)]
pub struct OriginalSet {
    originals: HashSet<Key, RandomState>,
}

impl Model for OriginalSet {
    ghost use Rattle.std.specs.Prelude.{ℕ, List};

    // In no particular order.
    ghost Value = { List (List ℕ) };

    ghost view = { λ set. set.originals.keys };
}

impl OriginalSet {
    /// No originals, and room for so many. The keys of hashes are to be secret where readers choose originals.
    pub fn with_room(alloc: Global, room: usize, keys: RandomState) -> Result<OriginalSet, NoMemory>
        ensures { IfOk result (λ set. set ≡ []) }
    {
        let originals = HashSet::with_capacity_and_hasher(alloc, room, keys)?;
        Ok(OriginalSet { originals })
    }

    /// Whether it has an original.
    pub fn has(&self, original: &Key) -> bool
        ensures { result ≡ stands self.now original.now }
    {
        self.originals.contains(original)
    }

    /// Adds an original. Returns whether it is new.
    pub fn insert(&mut self, original: Key) -> Result<bool, NoMemory>
        ensures added { IfOk result (λ added. added ≡ not (stands self.old original)) }
        ensures ok { OnOk result ((other : List ℕ) → stands self.new other ≡ (bytes_eq original other || stands self.old other)) }
        ensures err { OnErr result (self.new ≡ self.old) }
    {
        Ok(self.originals.insert(original)?)
    }
}
