//! A state with the stamp of each of its entries.
ghost use Rattle.std.specs.Prelude.{◌≡◌, ◌+◌, ◌≤◌, ◌↔◌, [], ◌∷◌, ◌++◌, List, length, take, OnOk, OnErr, IsErrOf, IfOk};
ghost use Rattle.std.specs.Prelude.{IsSome, IfSome, Some, map as map_list};
ghost use Rattle.std.specs.BTreeMap.{IsOrdered};
ghost use Rattle.std.specs.FinMap as map;
ghost use Rattle.std.specs.List.{All};
ghost use Rattle.memento_time.specs.Mementos.{text_cmp};
ghost use Rattle.harvest_lattice.specs.Lattice.{Key, join};
ghost use Rattle.memento_index.specs.Lists.{AreNews};
ghost use Rattle.replica_exchange.specs.CursorRule.{start_from};
ghost use Rattle.replica_exchange.specs.Faults.{stamp_words};
ghost use Rattle.harvest_lattice.specs.Rows.{row_entry};
ghost use Rattle.replica_exchange.specs.StampOrder.{given_at, order_of, is_stamp, standing_entry, AreAbove};
ghost use Rattle.replica_exchange.specs.Stamps.{IsStamped, IsAbsorbed, is_above, entries_above};
ghost use Rattle.replica_exchange.specs.StampShelves.{stamp_in, slot, key_of};
ghost use Rattle.replica_exchange.specs.declared.stamped.StampFault.TheVariants.{NoMemory as OutOfMemory};

use crate::cursor::Cursor;
use crate::order::StampOrder;
use crate::stamps::{
    ChangedKey, StampShelves, drop_rooms, fill_all, keys_of, make_rooms, stamp_at,
};
use harvest_lattice::{Changes, Row, State};
use memento_index::{Index, Merge};
use memento_time::{ArchiveName, NoMemory, Original};
use std::alloc::Global;
use std::cmp::Ordering;
use std::collections::BTreeMap;
use std::error::Error;
use std::fmt;
use std::marker::Model;

/// Why a merge isn't absorbed.
#[derive(Clone, Copy, Debug, PartialEq, Eq)]
pub enum StampFault {
    /// As many merges were absorbed as a 64-bit number can count.
    NumbersSpent,
    /// The allocator refused a growth.
    NoMemory,
}

impl fmt::Display for StampFault {
    ghost output = { λ fault. Some (stamp_words fault) };

    fn fmt<W: fmt::Write>(&self, f: &mut fmt::Formatter<W>) -> fmt::Result {
        match self {
            StampFault::NumbersSpent => f.write_str("numbers spent"),
            StampFault::NoMemory => f.write_str("no memory"),
        }
    }
}

impl Error for StampFault {}

impl From<NoMemory> for StampFault {
    ghost from_gives = { λ _ fault. fault ≡ OutOfMemory };

    fn from(_refused: NoMemory) -> StampFault {
        StampFault::NoMemory
    }
}

/// The keys of the entries that a merge changes, and the merge's number, which becomes their stamp.
#[derive(Clone, Copy)]
struct Stamping<'a> {
    keys: &'a [ChangedKey],
    number: u64,
}

/// Makes room for the stamps of the keys, and has the index take in the changes. If memory is refused, the index and
/// the stamps are as they were, but empty slots may have been made, and rows added to the order.
fn put_with_room(
    index: &mut Index,
    stamps: &mut StampShelves,
    order: &mut StampOrder,
    alloc: Global,
    changes: Changes,
    stamping: &Stamping<'_>,
) -> Result<(), NoMemory>
    requires ordered { IsOrdered text_cmp stamps.old }
    requires news { AreNews index.old changes }
    ensures ok { OnOk result (index.new ≡ join index.old changes) }
    ensures err { OnErr result (index.new ≡ index.old) }
    ensures same { (k : Key) → stamp_in (slot stamps.new k) ≡ stamp_in (slot stamps.old k) }
    ensures made { OnOk result (All (λ key. IsSome (slot stamps.new (key_of key))) stamping.now.keys.now) }
    ensures ordered { IsOrdered text_cmp stamps.new }
    ensures listed { OnOk result (order_of order.new
        ≡ order_of order.old ++ map_list (given_at stamping.now.number) stamping.now.keys.now) }
    ensures front { take (length (order_of order.old)) (order_of order.new) ≡ order_of order.old }
{
    order.add_all(stamping.keys, stamping.number)?;
    make_rooms(stamps, alloc, stamping.keys)?;
    index.put(changes)
}

/// Has the index take over another one's lists of the keys' originals, where both list the same.
fn share_lists(index: &mut Index, keys: &[ChangedKey], other: &Index)
    ensures { index.new ≡ index.old }
{
    for key in keys {
        index.share_list(key.original(), other);
    }
}

/// The order of keys.
fn by_key(left: &Row, right: &Row) -> Ordering {
    match left.archive.cmp(&right.archive) {
        Ordering::Equal => left.original.cmp(&right.original),
        order => order,
    }
}

/// What the merges of an incarnation made, and which of them last changed each entry.
#[derive(Debug, Drop)]
pub struct Stamped {
    alloc: Global,
    incarnation: u64,
    number: u64,
    index: Index,
    stamps: StampShelves,
    order: StampOrder,
}

impl Model for Stamped {
    ghost use Rattle.std.specs.BTreeMap.{IsOrdered};
    ghost use Rattle.memento_time.specs.Mementos.{text_cmp};
    ghost use Rattle.replica_exchange.specs.StampOrder.{IsOrderOf, order_of};
    ghost use Rattle.replica_exchange.specs.StampShelves.{stamps_in};
    ghost use Rattle.replica_exchange.specs.Stamps.{StampedState, coded_stamped};

    ghost Value = { StampedState };

    ghost coded = { coded_stamped };

    ghost view = { λ s. record {
      entries = s.index;
      stamps = stamps_in s.stamps;
      number = s.number;
      incarnation = s.incarnation;
    } };

    ghost invariant = { λ s. IsOrdered text_cmp s.stamps × IsOrderOf s.stamps (order_of s.order) s.number };
}

impl Stamped {
    ghost use Rattle.memento_index.specs.declared.merge.Merge.{Merge};

    /// The result of no merges. Takes no memory.
    pub fn new(alloc: Global, incarnation: u64) -> Stamped
        ensures empty { result
            ≡ record { entries = map.empty; stamps = map.empty; number = 0; incarnation = incarnation } }
        ensures stands { IsStamped [] result }
    {
        Stamped {
            alloc,
            incarnation,
            number: 0,
            index: Index::new(alloc),
            stamps: BTreeMap::new(alloc),
            order: StampOrder::new(alloc),
        }
    }

    /// Takes in a harvest, or everything that a state has, as the merge with the next number. The entries that it
    /// changes get that number as their stamp.
    ///
    /// It gets all its memory before the first change. In addition to what `Index::absorb` takes, it takes time in the
    /// size of the merge and, for each entry that changes, time logarithmic in the number of keys. After a quarter as
    /// many changes as there are keys, it sorts a row for each key anew.
    pub fn absorb(&mut self, merge: &Merge) -> Result<(), StampFault>
        ensures ok { OnOk result (IsAbsorbed self.old merge.now self.new) }
        ensures stands { (merges : List Merge) → IsStamped merges self.old
            → OnOk result (IsStamped (merges ++ merge.now ∷ []) self.new) }
        ensures spent { IsErrOf result StampFault.NumbersSpent ↔ (self.old.number ≡ 18446744073709551615) }
        ensures err { OnErr result (self.new ≡ self.old) }
    {
        self.absorb_next(merge)?;
        Ok(())
    }

    /// Takes in a merge as `absorb` does, in the second of two copies that take in the same merges: of each original
    /// that changed, it then shares the memory of the list with the first copy, as `Index::share_list` does.
    pub fn absorb_beside(&mut self, merge: &Merge, other: &Stamped) -> Result<(), StampFault>
        ensures ok { OnOk result (IsAbsorbed self.old merge.now self.new) }
        ensures stands { (merges : List Merge) → IsStamped merges self.old
            → OnOk result (IsStamped (merges ++ merge.now ∷ []) self.new) }
        ensures spent { IsErrOf result StampFault.NumbersSpent ↔ (self.old.number ≡ 18446744073709551615) }
        ensures err { OnErr result (self.new ≡ self.old) }
    {
        let keys = self.absorb_next(merge)?;
        share_lists(&mut self.index, &keys, &other.index);
        Ok(())
    }

    /// Takes in a merge with the next number, and returns the keys of the entries that it changed.
    fn absorb_next(&mut self, merge: &Merge) -> Result<Vec<ChangedKey>, StampFault>
        ensures ok { OnOk result (IsAbsorbed self.old merge.now self.new) }
        ensures stands { (merges : List Merge) → IsStamped merges self.old
            → OnOk result (IsStamped (merges ++ merge.now ∷ []) self.new) }
        ensures spent { IsErrOf result StampFault.NumbersSpent ↔ (self.old.number ≡ 18446744073709551615) }
        ensures err { OnErr result (self.new ≡ self.old) }
    {
        let Some(number) = self.number.checked_add(1) else {
            return Err(StampFault::NumbersSpent);
        };
        Ok(self.absorb_as(number, merge)?)
    }

    /// Takes in a merge with its number.
    fn absorb_as(&mut self, number: u64, merge: &Merge) -> Result<Vec<ChangedKey>, NoMemory>
        requires { number ≡ self.old.number + 1 }
        ensures ok { OnOk result (IsAbsorbed self.old merge.now self.new) }
        ensures err { OnErr result (self.new ≡ self.old) }
    {
        let changes = self.index.changes(merge)?;
        let keys = keys_of(self.alloc, changes.rows())?;
        let held = self.index.state().len();
        self.order.make_place(&self.stamps, keys.len(), held);
        let listed = self.order.len();
        let stamping = Stamping {
            keys: &keys,
            number,
        };
        let taken = put_with_room(
            &mut self.index,
            &mut self.stamps,
            &mut self.order,
            self.alloc,
            changes,
            &stamping,
        );
        match taken {
            Ok(()) => {
                fill_all(&mut self.stamps, &keys, number);
                self.number = number;
                Ok(keys)
            }
            Err(refused) => {
                drop_rooms(&mut self.stamps, &keys);
                self.order.truncate(listed);
                Err(refused)
            }
        }
    }

    /// The index of the state.
    pub fn index(&self) -> &Index
        ensures { result.now ≡ self.now.entries }
    {
        &self.index
    }

    /// The number of the incarnation that absorbed the merges.
    pub fn incarnation(&self) -> u64
        ensures { result ≡ self.now.incarnation }
    {
        self.incarnation
    }

    /// How many merges were absorbed.
    pub fn number(&self) -> u64
        ensures { result ≡ self.now.number }
    {
        self.number
    }

    /// The number of the merge that last changed an entry. Takes time logarithmic in the number of keys.
    pub fn stamp(&self, archive: ArchiveName, original: &Original) -> Option<u64>
        ensures { result ≡ map.get self.now.stamps (archive, original.now) }
    {
        stamp_at(&self.stamps, archive, original)
    }

    /// Whether a merge behind the first `start` changed an entry last. Takes time logarithmic in the number of keys.
    pub fn is_above(&self, archive: ArchiveName, original: &Original, start: u64) -> bool
        ensures { result ≡ is_above start (map.get self.now.stamps (archive, original.now)) }
    {
        match self.stamp(archive, original) {
            Some(stamp) => start < stamp,
            None => false,
        }
    }

    fn has_stamp(&self, archive: ArchiveName, original: &Original, stamp: u64) -> bool
        ensures { result ≡ is_stamp stamp (map.get self.now.stamps (archive, original.now)) }
    {
        match self.stamp(archive, original) {
            Some(other) => other == stamp,
            None => false,
        }
    }

    /// Adds the entry of a key, if the key still has this stamp.
    fn note_standing(
        &self,
        rows: &mut Vec<Row>,
        stamp: u64,
        archive: ArchiveName,
        original: &Original,
    ) -> Result<(), NoMemory>
        ensures { OnOk result (map_list row_entry rows.new.items
            ≡ map_list row_entry rows.old.items ++ standing_entry self.now (stamp, (archive, original.now))) }
    {
        if !self.has_stamp(archive, original, stamp) {
            return Ok(());
        }
        let Some(entry) = self.index.state().entry(archive, original) else {
            return Ok(());
        };
        let copy = original.try_clone()?;
        let kept = entry.try_clone()?;
        rows.push(Row {
            archive,
            original: copy,
            entry: kept,
        })?;
        Ok(())
    }

    /// The entries with a stamp above the start, in the order of their stamps.
    fn rows_above(&self, start: u64) -> Result<Vec<Row>, NoMemory>
        ensures { IfOk result (λ rows. AreAbove self.now start (map_list row_entry rows.items)) }
    {
        let mut rows = Vec::new(self.alloc);
        let behind = self.order.behind(start);
        for given in behind {
            self.note_standing(&mut rows, given.stamp(), given.archive(), given.original())?;
        }
        Ok(rows)
    }

    /// Whether so many stamps are above the start that a walk over all entries costs no more.
    fn is_much_above(&self, start: u64) -> bool {
        self.order.behind(start).len() > self.order.len() / 8
    }

    /// The entries with a stamp above the start, if no more than an eighth of all stamps are above it; else `None`.
    ///
    /// Takes time linear in these entries, and for each of them logarithmic in the number of keys.
    pub fn few_above(&self, start: u64) -> Result<Option<State>, NoMemory>
        ensures { IfOk result (λ found. IfSome found (λ state. state ≡ entries_above self.now start)) }
    {
        if self.is_much_above(start) {
            return Ok(None);
        }
        let mut rows = self.rows_above(start)?;
        rows.sort_by(by_key)?;
        State::of_rows(self.alloc, rows)
    }

    /// The start of a delta from a cursor: the cursor's number if the cursor is of this incarnation and no later than
    /// now, and else zero.
    pub fn start_from(&self, cursor: Option<Cursor>) -> u64
        ensures start { result ≡ start_from self.now cursor }
        ensures within { result ≤ self.now.number }
    {
        match cursor {
            Some(cursor)
                if cursor.incarnation == self.incarnation && cursor.number <= self.number => {
                cursor.number
            }
            _ => 0,
        }
    }
}
