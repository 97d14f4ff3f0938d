//! The list of one original.
ghost use Rattle.std.specs.Prelude.{◌≡◌, ◌+◌, ◌≤◌, [], IfOk, IfSome, IsTrue, Some, length};
ghost use Rattle.std.specs.Arc.{arc_value};
ghost use Rattle.memento_sets.specs.Sets as set;
ghost use Rattle.memento_index.specs.Counts.{mementos_of, IsTally, IsRecounted};
ghost use Rattle.memento_index.specs.Lists.{steps_in, CanCount, HasRoom};
ghost use Rattle.memento_index.specs.Tallies.{each_once};

use crate::counted::{Counted, Step, Steps};
use crate::counts::recount;
use crate::tally::Tally;
use crate::wear::{Wear, bytes_of_steps};
use memento_sets::{Mementos, are_same};
use memento_time::{Memento, NoMemory};
use std::alloc::Global;
use std::marker::Model;
use std::sync::Arc;

/// A list is short if it has this many mementos at most.
const SHORT: usize = 64;

/// A list that only one archive shows is the set of that archive's entry, shared if the entry has one revision, and has
/// no columns. It gets columns of its own when another archive's mementos are added, or more of the same revision. Once
/// these are counted, a short list that shows each memento of one archive alone is frozen: it is a set again, without
/// counts, which another index can share. It gets columns again when it changes, which costs a copy of a short list.
#[derive(Debug, Drop)]
pub struct Listing {
    holding: Holding,
    wear: Wear,
}

/// Most lists are sets, so that the columns stand apart: a list has three words.
#[derive(Debug, Drop)]
enum Holding {
    Nothing,
    Set(Arc<Mementos>),
    Columns(Box<Tally>),
}

const _: () = prove!(size_of::<Listing>() == 24);

impl Model for Listing {
    ghost use Rattle.memento_index.specs.Tallies.{Tallied, coded_tallied};
    ghost use Rattle.memento_index.specs.Holdings.{held_by};

    ghost Value = { Tallied };

    ghost coded = { coded_tallied };

    ghost view = { λ l. held_by l.holding };
}

impl Listing {
    /// No mementos. Takes no memory.
    pub fn new() -> Listing
        ensures { result.entries ≡ [] }
    {
        Listing {
            holding: Holding::Nothing,
            wear: Wear::none(),
        }
    }

    /// The mementos, in order.
    pub fn mementos(&self) -> &[Memento]
        ensures { result.now ≡ mementos_of self.now.entries }
    {
        match &self.holding {
            Holding::Nothing => &[],
            Holding::Set(list) => list.as_slice(),
            Holding::Columns(own) => own.mementos(),
        }
    }

    /// Whether these are exactly the mementos, each shown by one archive.
    pub fn has_just(&self, mementos: &[Memento]) -> bool
        ensures { IsTrue result → self.now.entries ≡ each_once mementos.now }
    {
        match &self.holding {
            Holding::Nothing => mementos.is_empty(),
            Holding::Set(list) => are_same(list.as_slice(), mementos),
            Holding::Columns(own) => own.has_just(mementos),
        }
    }

    /// Takes over the other's set, if both have the same one and it is short. If a handle is refused, the list stays.
    pub fn share_with(&mut self, other: &Listing)
        ensures { self.new ≡ self.old }
    {
        if let Holding::Set(list) = &mut self.holding {
            if let Holding::Set(others) = &other.holding {
                if share_same(list, others) {
                    self.wear = other.wear;
                }
            }
        }
    }

    /// Makes room for more mementos, and returns the length that the list may then have.
    pub fn reserve(&mut self, alloc: Global, more: usize) -> Result<usize, NoMemory>
        ensures entries { self.new.entries ≡ self.old.entries }
        ensures room { self.old.room ≤ self.new.room }
        ensures made { IfOk result (λ most. (most ≡ length self.new.entries + more) × (most ≤ self.new.room)) }
    {
        if let Holding::Columns(own) = &mut self.holding {
            return own.reserve(more);
        }
        let mut own = count_each(alloc, self.mementos(), more)?;
        let most = own.reserve(more)?;
        self.holding = Holding::Columns(Box::new(alloc, own)?);
        Ok(most)
    }

    /// Counts what archives begin and cease to show. Needs no memory: if it is refused, the list just isn't packed or
    /// frozen.
    pub fn recount(&mut self, lifted: &mut Tally, steps: Steps)
        requires tally { IsTally self.old.entries }
        requires can { CanCount self.old.entries (steps_in steps) }
        requires room { HasRoom 0 (Some self.old) lifted.old.room steps }
        requires settled { lifted.old.entries ≡ [] }
        ensures recounted { IsRecounted self.old.entries (steps_in steps) self.new.entries }
        ensures settled { lifted.new.entries ≡ [] }
        ensures lifted_room { lifted.old.room ≤ lifted.new.room }
    {
        match steps {
            Steps::All(made) => self.share(made.into_after()),
            Steps::Each(steps) => self.recount_each(lifted, steps.into_vec()),
        }
    }

    /// Shares the set of an entry.
    fn share(&mut self, list: Arc<Mementos>)
        ensures { self.new.entries ≡ each_once (set.items (arc_value list)) }
    {
        self.holding = Holding::Set(list);
        self.wear = Wear::none();
    }

    fn recount_each(&mut self, lifted: &mut Tally, steps: Vec<Step>)
        requires tally { IsTally self.old.entries }
        requires can { CanCount self.old.entries steps.items }
        requires list_room { length self.old.entries + length steps.items ≤ self.old.room }
        requires lifted_room { length self.old.entries + length steps.items ≤ lifted.old.room }
        requires settled { lifted.old.entries ≡ [] }
        ensures recounted { IsRecounted self.old.entries steps.items self.new.entries }
        ensures settled { lifted.new.entries ≡ [] }
        ensures lifted_room { lifted.old.room ≤ lifted.new.room }
    {
        // A list without columns has no room. In that case it is empty, and there are no steps.
        if let Holding::Columns(own) = &mut self.holding {
            let bytes = bytes_of_steps(&steps);
            recount(own, lifted, steps);
            self.wear.pack_worn(own, bytes);
            // The addresses stay where they are, and so does what is known of their wear.
            if let Some(list) = frozen(own) {
                self.holding = Holding::Set(list);
            }
        }
    }
}

/// Puts the other set in the place of the first, if they are the same and short, and returns whether it did.
fn share_same(shared: &mut Arc<Mementos>, others: &Arc<Mementos>) -> bool
    ensures { set.items (arc_value shared.new) ≡ set.items (arc_value shared.old) }
{
    if shared.len() > SHORT || others.len() > SHORT {
        return false;
    }
    if !are_same(shared.as_slice(), others.as_slice()) {
        return false;
    }
    match Arc::try_clone(others) {
        Ok(copy) => {
            *shared = copy;
            true
        }
        Err(_) => false,
    }
}

/// The set of a short list that shows each memento of one archive alone. `None` also if memory is refused.
fn frozen(own: &Tally) -> Option<Arc<Mementos>>
    ensures { IsTally own.now.entries
        → IfSome result (λ list. each_once (set.items (arc_value list)) ≡ own.now.entries) }
{
    let len = own.mementos().len();
    // An empty list is dropped.
    if len == 0 || len > SHORT {
        return None;
    }
    own.to_set()
}

/// Columns of these mementos, each shown by one archive, with room for more.
fn count_each(alloc: Global, mementos: &[Memento], more: usize) -> Result<Tally, NoMemory>
    ensures { IfOk result (λ tally. tally.entries ≡ each_once mementos.now) }
{
    let mut tally = Tally::new(alloc);
    // No allocator grants the greatest usize.
    tally.reserve(mementos.len().saturating_add(more))?;
    for memento in mementos {
        let memento = memento.try_clone()?;
        tally.push(Counted { memento, count: 1 });
    }
    Ok(tally)
}
