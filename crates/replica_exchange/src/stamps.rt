//! Keeps stamps, in slots by archive and original.
ghost use Rattle.std.specs.Prelude.{◌≡◌, ◌↔◌, ℕ, List, cond, IsSome, IsTrue, OnOk, IfOk, None, Some, map as map_list};
ghost use Rattle.std.specs.BTreeMap as tree;
ghost use Rattle.std.specs.BTreeMap.{IsOrdered};
ghost use Rattle.std.specs.FinMap as map;
ghost use Rattle.std.specs.List.{All};
ghost use Rattle.std.specs.Ordering.{eq_by_cmp};
ghost use Rattle.memento_time.specs.Mementos.{text_cmp};
ghost use Rattle.harvest_lattice.specs.Lattice.{Key, key_cmp};
ghost use Rattle.harvest_lattice.specs.Rows.{row_key};
ghost use Rattle.replica_exchange.specs.StampShelves.{stamp_in, slot, key_of, stamp_after};

use harvest_lattice::Row;
use memento_sets::contains_rising;
use memento_time::{ArchiveName, NoMemory, Original};
use std::alloc::Global;
use std::collections::btree_map::{BTreeMap, Iter};
use std::marker::Model;

/// The archive and original of an entry that changes.
#[derive(Debug, Drop)]
pub struct ChangedKey {
    archive: ArchiveName,
    original: Original,
}

impl ChangedKey {
    fn of(row: &Row) -> Result<ChangedKey, NoMemory>
        ensures { IfOk result (λ key. key_of key ≡ row_key row.now) }
    {
        let original = row.original().try_clone()?;
        Ok(ChangedKey {
            archive: row.archive(),
            original,
        })
    }

    pub fn archive(&self) -> ArchiveName
        ensures { result ≡ self.now.archive }
    {
        self.archive
    }

    pub fn original(&self) -> &Original
        ensures { result.now ≡ self.now.original }
    {
        &self.original
    }
}

/// The keys of the rows. They remain when the rows are taken in.
pub(crate) fn keys_of(alloc: Global, rows: &[Row]) -> Result<Vec<ChangedKey>, NoMemory>
    ensures { IfOk result (λ keys. map_list key_of keys.items ≡ map_list row_key rows.now) }
{
    let mut keys = Vec::new(alloc);
    for row in rows {
        let key = ChangedKey::of(row)?;
        keys.push(key)?;
    }
    Ok(keys)
}

/// The slots of an archive. An empty slot counts as none: it is room that was made before a change, so that the change
/// can't be refused.
#[derive(Debug, Drop)]
pub struct StampShelf {
    slots: BTreeMap<Original, Option<u64>>,
}

impl Model for StampShelf {
    ghost use Rattle.std.specs.BTreeMap.{IsOrdered};
    ghost use Rattle.std.specs.FinMap as map;
    ghost use Rattle.memento_time.specs.Mementos.{text_cmp};
    ghost use Rattle.replica_exchange.specs.StampShelves.{Slots, coded_slots};

    ghost Value = { Slots };

    ghost coded = { coded_slots };

    ghost view = { λ s. map.from_entries s.slots.entries };

    ghost invariant = { λ s. IsOrdered text_cmp s.slots };
}

impl StampShelf {
    fn new(alloc: Global) -> StampShelf
        ensures { result ≡ map.empty }
    {
        StampShelf {
            slots: BTreeMap::new(alloc),
        }
    }

    fn stamp(&self, original: &Original) -> Option<u64>
        ensures { result ≡ stamp_in (map.get self.now original.now) }
    {
        *self.slots.get(original)?
    }

    /// The slots by original.
    pub fn iter(&self) -> Iter<'_, Original, Option<u64>>
        ensures { result ≡ map.entries self.now }
    {
        self.slots.iter()
    }

    /// Makes a slot if there is none. The stamps stay as they are.
    fn make_slot(&mut self, original: &Original) -> Result<(), NoMemory>
        ensures same { (o : List ℕ) → stamp_in (map.get self.new o) ≡ stamp_in (map.get self.old o) }
        ensures stay { (o : List ℕ) → IsSome (map.get self.old o) → IsSome (map.get self.new o) }
        ensures made { OnOk result (IsSome (map.get self.new original.now)) }
    {
        if !contains_rising(&self.slots, original) {
            let original = original.try_clone()?;
            self.slots.insert(original, None)?;
        }
        Ok(())
    }

    /// Whether the slot is there and empty.
    fn has_empty(&self, original: &Original) -> bool
        ensures { IsTrue result ↔ (map.get self.now original.now ≡ Some None) }
    {
        match self.slots.get(original) {
            Some(slot) => slot.is_none(),
            None => false,
        }
    }

    /// Drops the slot if it is empty. The stamps stay as they are.
    fn drop_empty(&mut self, original: &Original)
        ensures same { (o : List ℕ) → stamp_in (map.get self.new o) ≡ stamp_in (map.get self.old o) }
        ensures gone { ¬ (map.get self.new original.now ≡ Some None) }
        ensures others { (o : List ℕ) → ¬ (map.get self.old o ≡ Some None) → ¬ (map.get self.new o ≡ Some None) }
    {
        if self.has_empty(original) {
            self.slots.remove(original);
        }
    }

    /// Puts a stamp into a slot that exists.
    fn fill(&mut self, original: &Original, stamp: u64)
        requires { IsSome (map.get self.old original.now) }
        ensures { self.new ≡ map.insert self.old original.now (Some stamp) }
    {
        let Some(slot) = self.slots.get_mut(original) else {
            return;
        };
        *slot = Some(stamp);
    }
}

/// The slots of each archive.
pub type StampShelves = BTreeMap<ArchiveName, StampShelf>;

/// The stamp of an archive and original.
pub(crate) fn stamp_at(
    shelves: &StampShelves,
    archive: ArchiveName,
    original: &Original,
) -> Option<u64>
    ensures { result ≡ stamp_in (slot shelves.now (archive, original.now)) }
{
    shelves.get(&archive)?.stamp(original)
}

/// Makes a shelf for the archive if there is none.
fn make_shelf(
    shelves: &mut StampShelves,
    alloc: Global,
    archive: ArchiveName,
) -> Result<(), NoMemory>
    requires ordered { IsOrdered text_cmp shelves.old }
    ensures same { (k : Key) → stamp_in (slot shelves.new k) ≡ stamp_in (slot shelves.old k) }
    ensures stay { (k : Key) → IsSome (slot shelves.old k) → IsSome (slot shelves.new k) }
    ensures made { OnOk result (IsSome (tree.get text_cmp shelves.new archive)) }
    ensures ordered { IsOrdered text_cmp shelves.new }
{
    if !shelves.contains_key(&archive) {
        shelves.insert(archive, StampShelf::new(alloc))?;
    }
    Ok(())
}

/// Makes a slot for the key if there is none. The stamps stay as they are.
fn make_room(
    shelves: &mut StampShelves,
    alloc: Global,
    archive: ArchiveName,
    original: &Original,
) -> Result<(), NoMemory>
    requires ordered { IsOrdered text_cmp shelves.old }
    ensures same { (k : Key) → stamp_in (slot shelves.new k) ≡ stamp_in (slot shelves.old k) }
    ensures stay { (k : Key) → IsSome (slot shelves.old k) → IsSome (slot shelves.new k) }
    ensures made { OnOk result (IsSome (slot shelves.new (archive, original.now))) }
    ensures ordered { IsOrdered text_cmp shelves.new }
{
    make_shelf(shelves, alloc, archive)?;
    match shelves.get_mut(&archive) {
        Some(shelf) => shelf.make_slot(original),
        None => Ok(()),
    }
}

/// Makes a slot for each key.
pub(crate) fn make_rooms(
    shelves: &mut StampShelves,
    alloc: Global,
    keys: &[ChangedKey],
) -> Result<(), NoMemory>
    requires ordered { IsOrdered text_cmp shelves.old }
    ensures same { (k : Key) → stamp_in (slot shelves.new k) ≡ stamp_in (slot shelves.old k) }
    ensures made { OnOk result (All (λ key. IsSome (slot shelves.new (key_of key))) keys.now) }
    ensures ordered { IsOrdered text_cmp shelves.new }
{
    for key in keys {
        make_room(shelves, alloc, key.archive, &key.original)?;
    }
    Ok(())
}

/// Drops the slot of a key if it is empty. The stamps stay as they are.
fn drop_room(shelves: &mut StampShelves, archive: ArchiveName, original: &Original)
    requires ordered { IsOrdered text_cmp shelves.old }
    ensures same { (k : Key) → stamp_in (slot shelves.new k) ≡ stamp_in (slot shelves.old k) }
    ensures gone { ¬ (slot shelves.new (archive, original.now) ≡ Some None) }
    ensures others { (k : Key) → ¬ (slot shelves.old k ≡ Some None) → ¬ (slot shelves.new k ≡ Some None) }
    ensures ordered { IsOrdered text_cmp shelves.new }
{
    let Some(shelf) = shelves.get_mut(&archive) else {
        return;
    };
    shelf.drop_empty(original);
}

/// Drops those slots of the keys that are empty, so that a merge that is refused leaves no copies of originals behind.
/// The stamps stay as they are.
pub(crate) fn drop_rooms(shelves: &mut StampShelves, keys: &[ChangedKey])
    requires ordered { IsOrdered text_cmp shelves.old }
    ensures same { (k : Key) → stamp_in (slot shelves.new k) ≡ stamp_in (slot shelves.old k) }
    ensures gone { All (λ key. ¬ (slot shelves.new (key_of key) ≡ Some None)) keys.now }
    ensures ordered { IsOrdered text_cmp shelves.new }
{
    for key in keys {
        drop_room(shelves, key.archive, &key.original);
    }
}

/// Puts a stamp into the slot of a key. The slot exists.
fn fill(shelves: &mut StampShelves, archive: ArchiveName, original: &Original, stamp: u64)
    requires ordered { IsOrdered text_cmp shelves.old }
    requires room { IsSome (slot shelves.old (archive, original.now)) }
    ensures after { (k : Key)
        → slot shelves.new k ≡ cond (eq_by_cmp key_cmp k (archive, original.now)) (Some (Some stamp))
        (slot shelves.old k) }
    ensures ordered { IsOrdered text_cmp shelves.new }
{
    let Some(shelf) = shelves.get_mut(&archive) else {
        return;
    };
    shelf.fill(original, stamp);
}

/// Puts a stamp into the slots of the keys. The slots exist.
pub(crate) fn fill_all(shelves: &mut StampShelves, keys: &[ChangedKey], stamp: u64)
    requires ordered { IsOrdered text_cmp shelves.old }
    requires room { All (λ key. IsSome (slot shelves.old (key_of key))) keys.now }
    ensures stamps { (k : Key)
        → stamp_in (slot shelves.new k) ≡ stamp_after (map_list key_of keys.now) stamp k (stamp_in (slot shelves.old k)) }
    ensures ordered { IsOrdered text_cmp shelves.new }
{
    for key in keys {
        fill(shelves, key.archive, &key.original, stamp);
    }
}
