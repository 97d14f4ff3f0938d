//! Keys in the order in which they got their stamps.
ghost use Rattle.std.specs.Prelude.{◌≡◌, ◌++◌, ◌∷◌, ◌≤◌, ◌<◌, [], ℕ, length, take, IfOk, OnOk, OnErr, map as map_list};
ghost use Rattle.std.specs.Arc.{arc_value};
ghost use Rattle.std.specs.BTreeMap.{IsOrdered};
ghost use Rattle.std.specs.FinMap as map;
ghost use Rattle.std.specs.List.{AllWithin, flat_map};
ghost use Rattle.std.specs.List.Sorted.{IsNonDecreasingBy};
ghost use Rattle.memento_time.specs.Mementos.{text_cmp};
ghost use Rattle.replica_exchange.specs.StampShelves.{key_of};
ghost use Rattle.replica_exchange.specs.StampOrder.{stamp_and_key, given_at, order_of, row_with, AreStanding, IsOrderOf, IsBehind};
ghost use Rattle.replica_exchange.specs.StampOrder as spec;

use crate::stamps::{ChangedKey, StampShelf, StampShelves};
use memento_time::{ArchiveName, NoMemory, Original};
use std::alloc::Global;
use std::collections::BTreeMap;
use std::sync::Arc;

/// One copy of each archive's name, which rows share.
type Names = BTreeMap<ArchiveName, Arc<ArchiveName>>;

/// A stamp that was given to a key. A row takes 32 bytes.
#[derive(Debug, Drop)]
pub struct OrderRow {
    stamp: u64,
    archive: Arc<ArchiveName>,
    original: Original,
}

impl OrderRow {
    pub fn stamp(&self) -> u64
        ensures { result ≡ self.now.stamp }
    {
        self.stamp
    }

    pub fn archive(&self) -> ArchiveName
        ensures { result ≡ (stamp_and_key self.now).1.0 }
    {
        *self.archive
    }

    pub fn original(&self) -> &Original
        ensures { result.now ≡ (stamp_and_key self.now).1.1 }
    {
        &self.original
    }
}

/// How many rows have a stamp up to this one.
fn count_until(rows: &[OrderRow], stamp: u64) -> usize
    requires { IsNonDecreasingBy (λ row. row.stamp) rows.now }
    ensures within { result ≤ length rows.now }
    ensures until { AllWithin (λ row. row.stamp ≤ stamp) rows.now 0 result }
    ensures after { AllWithin (λ row. stamp < row.stamp) rows.now result (length rows.now) }
{
    rows.partition_point(
        |row: &OrderRow| -> bool
            ensures { result ≡ spec.is_until stamp row.now }
        { row.stamp <= stamp },
    )
}

/// How many rows may stand there before they are made anew: a quarter more than there are keys, and a few.
fn most_rows(keys: usize) -> usize {
    keys.saturating_add(keys / 4).saturating_add(16)
}

/// Adds a row for an original of an archive, if its slot has a stamp.
fn list_slot(
    rows: &mut Vec<OrderRow>,
    name: &Arc<ArchiveName>,
    original: &Original,
    slot: Option<u64>,
) -> Result<(), NoMemory>
    ensures { OnOk result (map_list stamp_and_key rows.new.items
        ≡ map_list stamp_and_key rows.old.items ++ row_with (arc_value name.now, original.now) slot) }
{
    let Some(stamp) = slot else {
        return Ok(());
    };
    let archive = name.clone()?;
    let original = original.try_clone()?;
    rows.push(OrderRow {
        stamp,
        archive,
        original,
    })?;
    Ok(())
}

/// Adds a row for each stamp of an archive.
fn list_shelf(
    rows: &mut Vec<OrderRow>,
    name: &Arc<ArchiveName>,
    shelf: &StampShelf,
) -> Result<(), NoMemory>
    ensures { OnOk result (map_list stamp_and_key rows.new.items ≡ map_list stamp_and_key rows.old.items
        ++ flat_map (λ slot. row_with (arc_value name.now, slot.0) slot.1) (map.entries shelf.now)) }
{
    for (original, slot) in shelf.iter() {
        list_slot(rows, name, original, *slot)?;
    }
    Ok(())
}

/// The stamps that merges gave, in order, each with the key that got it: a row for each key and its stamp, and rows of
/// stamps that their keys no longer have.
///
/// A key gets a row with each merge that changes it. Before a merge that would leave a quarter more rows than keys, and
/// a few, the rows are made anew from the stamps that the keys have: one row for each key.
#[derive(Debug, Drop)]
pub struct StampOrder {
    alloc: Global,
    names: Names,
    rows: Vec<OrderRow>,
}

impl StampOrder {
    pub fn new(alloc: Global) -> StampOrder
        ensures { order_of result ≡ [] }
    {
        StampOrder {
            alloc,
            names: BTreeMap::new(alloc),
            rows: Vec::new(alloc),
        }
    }

    /// The rows with a stamp above this one. Takes time logarithmic in the number of rows.
    pub fn behind(&self, stamp: u64) -> &[OrderRow]
        requires { IsNonDecreasingBy (λ row. row.0) (order_of self.now) }
        ensures { IsBehind stamp (order_of self.now) (map_list stamp_and_key result.now) }
    {
        let rows = self.rows.as_slice();
        let count = count_until(rows, stamp);
        &rows[count..]
    }

    /// The archive's name, shared. It stays even if the rest of a merge is refused.
    fn name(&mut self, archive: ArchiveName) -> Result<Arc<ArchiveName>, NoMemory>
        ensures name { IfOk result (λ name. arc_value name ≡ archive) }
        ensures same { self.new.rows ≡ self.old.rows }
    {
        if let Some(name) = self.names.get(&archive) {
            if **name == archive {
                return Ok(name.clone()?);
            }
        }
        let name = Arc::new(self.alloc, archive)?;
        self.names.insert(archive, name.clone()?)?;
        Ok(name)
    }

    /// Adds one row.
    fn add(&mut self, key: &ChangedKey, stamp: u64) -> Result<(), NoMemory>
        ensures ok { OnOk result (order_of self.new ≡ order_of self.old ++ (stamp, key_of key.now) ∷ []) }
        ensures err { OnErr result (order_of self.new ≡ order_of self.old) }
    {
        let archive = self.name(key.archive())?;
        let original = key.original().try_clone()?;
        self.rows.push(OrderRow {
            stamp,
            archive,
            original,
        })?;
        Ok(())
    }

    /// Adds a row for each of the keys. If memory is refused, some may have been added.
    pub fn add_all(&mut self, keys: &[ChangedKey], stamp: u64) -> Result<(), NoMemory>
        ensures ok { OnOk result (order_of self.new ≡ order_of self.old ++ map_list (given_at stamp) keys.now) }
        ensures front { take (length (order_of self.old)) (order_of self.new) ≡ order_of self.old }
    {
        for key in keys {
            self.add(key, stamp)?;
        }
        Ok(())
    }

    /// How many rows there are.
    pub fn len(&self) -> usize
        ensures { result ≡ length (order_of self.now) }
    {
        self.rows.len()
    }

    /// Drops the rows after the first `len`.
    pub fn truncate(&mut self, len: usize)
        ensures { order_of self.new ≡ take len (order_of self.old) }
    {
        self.rows.truncate(len);
    }

    /// A row for each key that has a stamp, in the order of stamps. Takes memory for `room` rows at once.
    fn standing_rows(
        &mut self,
        shelves: &StampShelves,
        room: usize,
    ) -> Result<Vec<OrderRow>, NoMemory>
        requires { IsOrdered text_cmp shelves.now }
        ensures standing { IfOk result (λ rows. AreStanding shelves.now (map_list stamp_and_key rows.items)) }
        ensures rises { IfOk result (λ rows. IsNonDecreasingBy (λ row. row.stamp) rows.items) }
        ensures same { self.new.rows ≡ self.old.rows }
    {
        let mut rows = Vec::with_capacity(self.alloc, room)?;
        for (archive, shelf) in shelves {
            let name = self.name(*archive)?;
            list_shelf(&mut rows, &name, shelf)?;
        }
        rows.sort_unstable_by_key(
            |row: &OrderRow| -> u64
                ensures { result ≡ row.now.stamp }
            { row.stamp },
        );
        Ok(rows)
    }

    /// Sees to it that more rows can be added: where there would be too many, it makes the rows anew, one for each of
    /// the keys. If memory for them is refused, the rows stay as they are.
    pub fn make_place(&mut self, shelves: &StampShelves, more: usize, keys: usize)
        requires { IsOrdered text_cmp shelves.now }
        ensures { (number : ℕ) → IsOrderOf shelves.now (order_of self.old) number
            → IsOrderOf shelves.now (order_of self.new) number }
    {
        let most = most_rows(keys);
        if self.rows.len().saturating_add(more) <= most {
            return;
        }
        let room = most.max(keys.saturating_add(more));
        if let Ok(rows) = self.standing_rows(shelves, room) {
            self.rows = rows;
        }
    }
}
