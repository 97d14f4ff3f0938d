//! A state with the list of each original kept ready.
ghost use Rattle.std.specs.Prelude.{◌≡◌, ◌≤◌, ◌++◌, ℕ, List, OnOk, OnErr, IfOk, None, option_copied};
ghost use Rattle.std.specs.BTreeMap as tree;
ghost use Rattle.std.specs.FinMap as map;
ghost use Rattle.memento_time.specs.Mementos.{text_cmp};
ghost use Rattle.memento_sets.specs.Sets as set;
ghost use Rattle.harvest_lattice.specs.Lattice.{join};
ghost use Rattle.harvest_lattice.specs.News.{IsNews};
ghost use Rattle.harvest_lattice.specs.Knowledge.{Harvested, lat, shown, shown_of};
ghost use Rattle.memento_index.specs.Choice.{nearest, last};
ghost use Rattle.memento_index.specs.Lists.{Grows, FitLists, HaveRoom, AreNews};

use crate::gather::gather_steps;
use crate::last::last_of;
use crate::lists::{Lists, StepLists, drop_empty, make_rooms, recount_all, share_list};
use crate::merge::Merge;
use crate::nearest::nearest_of;
use crate::tally::Tally;
use harvest_lattice::{Changes, State};
use memento_time::{Memento, Moment, NoMemory, Original};
use std::alloc::Global;
use std::collections::BTreeMap;
use std::marker::Model;

/// A state, with the mementos that it shows of each of its originals.
#[derive(Debug, Drop)]
pub struct Index {
    alloc: Global,
    state: State,
    lists: Lists,
}

impl Model for Index {
    ghost use Rattle.std.specs.FinMap as map;
    ghost use Rattle.harvest_lattice.specs.Lattice.{Entries, coded_key, coded_kept};

    ghost Value = { Entries };

    ghost coded = { map.code coded_key coded_kept };

    ghost use Rattle.memento_index.specs.Lists.{IsCounted};

    ghost view = { λ i. i.state };

    ghost invariant = { λ i. IsCounted i.state i.lists };
}

impl Index {
    ghost use Rattle.memento_index.specs.Merges.{adds_of};

    /// The index of no harvests. Takes no memory.
    pub fn new(alloc: Global) -> Index
        ensures { result ≡ map.empty }
    {
        Index {
            alloc,
            state: State::new(alloc),
            lists: BTreeMap::new(alloc),
        }
    }

    /// Takes in a harvest, or everything that a state has.
    ///
    /// It gets all the memory that it must have before the first change, and then changes only the counts of what
    /// begins or ceases to be shown. It takes time in the size of what it takes in and of the entries at its keys; for
    /// a list that changes, in what stands from the first change on; and time logarithmic in the number of keys and of
    /// lists. A list that only one archive shows is shared with that archive's entry, and so is the list that a later
    /// revision puts in its place; it is copied when another archive's mementos are added, or more of the same
    /// revision. A list of at most 64 mementos of which only one archive shows each has no counts, and is copied when
    /// it changes; unless memory is refused, it is copied once more after the change. The number of archives, the lists
    /// that don't change, and the number of revisions in which an archive shows a memento make no difference. A list in
    /// which more addresses began and ceased than it has is packed anew, unless memory is refused.
    pub fn absorb(&mut self, merge: &Merge) -> Result<(), NoMemory>
        ensures ok { OnOk result (self.new ≡ join self.old (lat (adds_of merge.now))) }
        ensures stands { (hs : List Harvested) → self.old ≡ lat hs
            → OnOk result (self.new ≡ lat (hs ++ adds_of merge.now)) }
        ensures err { OnErr result (self.new ≡ self.old) }
    {
        let changes = self.changes(merge)?;
        self.put(changes)
    }

    /// What a merge brings that is news to this index. Changes nothing here.
    pub fn changes(&self, merge: &Merge) -> Result<Changes, NoMemory>
        ensures news { IfOk result (IsNews self.now (lat (adds_of merge.now))) }
        ensures fit { IfOk result (AreNews self.now) }
    {
        merge.changes(&self.state)
    }

    /// Takes in what is news to this index, as `changes` gives it, in the time and memory that `absorb` states.
    pub fn put(&mut self, changes: Changes) -> Result<(), NoMemory>
        requires { AreNews self.old changes }
        ensures ok { OnOk result (self.new ≡ join self.old changes) }
        ensures err { OnErr result (self.new ≡ self.old) }
    {
        let steps = gather_steps(self.alloc, &self.state, &self.lists, &changes)?;
        let mut lifted = Tally::new(self.alloc);
        let taken = put_with_room(
            &mut self.state,
            &mut self.lists,
            &mut lifted,
            self.alloc,
            changes,
            &steps,
        );
        match taken {
            Ok(()) => {
                recount_all(&mut self.lists, &mut lifted, steps);
                Ok(())
            }
            Err(refused) => {
                drop_empty(&mut self.lists, &steps);
                Err(refused)
            }
        }
    }

    /// Shares the memory of an original's list with another index, which may be a second copy of this one.
    ///
    /// If both list the same mementos of the original, at most 64, and neither list has counts, this index takes over
    /// the other's list and lets go of its own. `absorb` says which lists have counts. It takes time in the length of a
    /// list of 64 at most, beside the time to find both, and needs no memory. If a handle is refused, the list stays.
    pub fn share_list(&mut self, original: &Original, other: &Index)
        ensures { self.new ≡ self.old }
    {
        share_list(&mut self.lists, original, &other.lists);
    }

    /// The mementos that are shown of an original, each once, by datetime, then by URI.
    pub fn list(&self, original: &Original) -> &[Memento]
        ensures list { result.now ≡ set.items (shown_of self.now original.now) }
        ensures stands { (hs : List Harvested) → self.now ≡ lat hs → result.now ≡ set.items (shown hs original.now) }
    {
        self.list_of(original)
    }

    fn list_of(&self, original: &Original) -> &[Memento]
        ensures { result.now ≡ set.items (shown_of self.now original.now) }
    {
        match self.lists.get(original) {
            Some(list) => list.mementos(),
            None => &[],
        }
    }

    /// The memento at the least distance in seconds: the earlier of two at the same distance, and the one with the
    /// least URI of those at one datetime. `None` if nothing is shown.
    pub fn nearest(&self, original: &Original, moment: Moment) -> Option<&Memento>
        ensures nearest { option_copied result ≡ nearest (shown_of self.now original.now) moment }
        ensures stands { (hs : List Harvested) → self.now ≡ lat hs
            → option_copied result ≡ nearest (shown hs original.now) moment }
    {
        nearest_of(self.list(original), moment)
    }

    /// The memento with the greatest datetime: the one with the least URI, if several have it. `None` if nothing is
    /// shown.
    pub fn latest(&self, original: &Original) -> Option<&Memento>
        ensures last { option_copied result ≡ last (shown_of self.now original.now) }
        ensures stands { (hs : List Harvested) → self.now ≡ lat hs
            → option_copied result ≡ last (shown hs original.now) }
    {
        last_of(self.list(original))
    }

    /// The state of everything that was taken in.
    pub fn state(&self) -> &State
        ensures { result.now ≡ self.now }
    {
        &self.state
    }
}

/// Makes room for the steps, and has the state take in the changes. If memory is refused, the state is as it was, and
/// empty lists may have been made.
fn put_with_room(
    state: &mut State,
    lists: &mut Lists,
    lifted: &mut Tally,
    alloc: Global,
    changes: Changes,
    steps: &StepLists,
) -> Result<(), NoMemory>
    requires { FitLists lists.old steps.now }
    ensures ok { OnOk result (state.new ≡ join state.old changes) }
    ensures err { OnErr result (state.new ≡ state.old) }
    ensures grow { (o : List ℕ) → Grows (tree.get text_cmp lists.old o) (tree.get text_cmp lists.new o) }
    ensures others { (o : List ℕ) → tree.get text_cmp steps.now o ≡ None
        → tree.get text_cmp lists.new o ≡ tree.get text_cmp lists.old o }
    ensures lifted { lifted.new.entries ≡ lifted.old.entries }
    ensures made { OnOk result (HaveRoom (map.len state.old) steps.now lists.new lifted.new.room) }
    ensures few { OnOk result (map.len state.old ≤ 18446744073709551615) }
{
    let keys = state.len();
    make_rooms(lists, lifted, alloc, steps, keys)?;
    state.put(changes)
}
