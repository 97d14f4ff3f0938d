//! When originals were looked after.
ghost use Rattle.std.specs.Prelude.{◌≡◌, ◌≤◌, [], length, IfOk, OnOk, OnErr};
ghost use Rattle.std.specs.NonZero.{non_zero_usize_get};
ghost use Rattle.lru.specs.LruCache.{lru_cache};
ghost use Rattle.wish_list.specs.Tables.{after_asking, after_noting, second_of};

use lru::LruCache;
use memento_time::NoMemory;
use original_sets::Key;
use std::alloc::Global;
use std::hash::RandomState;
use std::marker::Model;
use std::num::NonZeroUsize;

/// Originals, each with the second in which it was looked after last. The one that was noted or asked for last stands
/// first; where there is no more room, the last gives its place to a new one.
#[derive(Drop)]
pub(crate) struct Table {
    seconds: LruCache<Key, u64, RandomState>,
}

impl Model for Table {
    ghost use Rattle.std.specs.Prelude.{ℕ, List};
    ghost use Rattle.std.specs.Coded.{coded_ℕ, coded_list};
    ghost use Rattle.lru.specs.LruCache.{LruCache as Entries, lru_cache_code};

    ghost Value = { Entries (List ℕ) ℕ };

    ghost coded = { lru_cache_code (coded_list coded_ℕ) coded_ℕ };

    ghost view = { λ table. table.seconds };
}

impl Table {
    /// No originals, and room for so many. Memory is taken for each that comes. The keys of hashes are to be secret, as
    /// readers choose originals.
    pub(crate) fn new(
        alloc: Global,
        room: NonZeroUsize,
        keys: RandomState,
    ) -> Result<Table, NoMemory>
        ensures { IfOk result (λ table. table ≡ lru_cache [] (non_zero_usize_get room)) }
    {
        let mut seconds = LruCache::unbounded_with_hasher(alloc, keys)?;
        seconds.resize(room);
        Ok(Table { seconds })
    }

    /// How many originals there are.
    pub(crate) fn len(&self) -> usize
        ensures len { result ≡ length self.now.entries }
        ensures room { result ≤ self.now.cap }
    {
        self.seconds.len()
    }

    /// The second in which an original was looked after last, if it is there.
    pub(crate) fn get(&self, original: &Key) -> Option<u64>
        ensures { result ≡ second_of self.now original.now }
    {
        self.seconds.peek(original).copied()
    }

    /// Notes that an original was asked for: it stands first, if it is there.
    pub(crate) fn ask(&mut self, original: &Key)
        ensures { self.new ≡ after_asking self.old original.now }
    {
        let _ = self.seconds.promote(original);
    }

    /// Notes that an original was looked after in a second.
    pub(crate) fn note(&mut self, original: Key, second: u64) -> Result<(), NoMemory>
        ensures ok { OnOk result (self.new ≡ after_noting self.old original second) }
        ensures err { OnErr result (self.new ≡ self.old) }
    {
        self.seconds.put(original, second)?;
        Ok(())
    }
}
