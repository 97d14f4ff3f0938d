//! The lists of an index.
ghost use Rattle.std.specs.Prelude.{◌≡◌, ◌↔◌, ◌+◌, ◌≤◌, ℕ, List, [], false, IsTrue, IfOk, IfSome, IsSome, OnOk};
ghost use Rattle.std.specs.Prelude.{None, length};
ghost use Rattle.std.specs.BTreeMap as tree;
ghost use Rattle.std.specs.Ordering.{eq_by_cmp};
ghost use Rattle.memento_time.specs.Mementos.{text_cmp};
ghost use Rattle.memento_index.specs.Counts.{IsTally, IsRecounted};
ghost use Rattle.memento_index.specs.Lists.{IsListed, Grows, tally_of, steps_in, steps_of, FitsList, FitLists, HasRoom};
ghost use Rattle.memento_index.specs.Lists.{HaveRoom, CanCount};

use crate::counted::Steps;
use crate::listing::Listing;
use crate::tally::Tally;
use memento_sets::contains_rising;
use memento_time::{NoMemory, Original};
use std::alloc::Global;
use std::collections::BTreeMap;

pub type Lists = BTreeMap<Original, Listing>;

/// What begins and ceases to be shown of each original.
pub(crate) type StepLists = BTreeMap<Original, Steps>;

/// Makes room in the list of each original for its steps, and room to lift the longest of these lists. A list that is
/// replaced needs no room. No count of the keys and the steps is too large. If memory is refused, empty lists may have
/// been made.
pub(crate) fn make_rooms(
    lists: &mut Lists,
    lifted: &mut Tally,
    alloc: Global,
    all: &StepLists,
    keys: usize,
) -> Result<(), NoMemory>
    requires fit { FitLists lists.old all.now }
    ensures grow { (o : List ℕ) → Grows (tree.get text_cmp lists.old o) (tree.get text_cmp lists.new o) }
    ensures others { (o : List ℕ) → tree.get text_cmp all.now o ≡ None
        → tree.get text_cmp lists.new o ≡ tree.get text_cmp lists.old o }
    ensures lifted { lifted.new.entries ≡ lifted.old.entries }
    ensures made { OnOk result (HaveRoom keys all.now lists.new lifted.new.room) }
{
    for (original, steps) in all {
        make_room(lists, lifted, alloc, original, steps, keys)?;
    }
    Ok(())
}

fn make_room(
    lists: &mut Lists,
    lifted: &mut Tally,
    alloc: Global,
    original: &Original,
    steps: &Steps,
    keys: usize,
) -> Result<(), NoMemory>
    ensures grow { (o : List ℕ) → Grows (tree.get text_cmp lists.old o) (tree.get text_cmp lists.new o) }
    ensures others { (o : List ℕ) → eq_by_cmp text_cmp original.now o ≡ false
        → tree.get text_cmp lists.new o ≡ tree.get text_cmp lists.old o }
    ensures lifted { lifted.new.entries ≡ lifted.old.entries }
    ensures lifted_room { lifted.old.room ≤ lifted.new.room }
    ensures made { OnOk result (FitsList (tally_of lists.old original.now) steps.now
        → HasRoom keys (tree.get text_cmp lists.new original.now) lifted.new.room steps.now) }
{
    let more = steps.len();
    // No memory is large enough for that many.
    if keys.checked_add(more).is_none() {
        return Err(NoMemory);
    }
    make_list(lists, original)?;
    if let Steps::Each(_) = steps {
        let most = reserve(lists, alloc, original, more)?;
        lifted.reserve(most)?;
    }
    Ok(())
}

/// Gives an original an empty list if it has none.
fn make_list(lists: &mut Lists, original: &Original) -> Result<(), NoMemory>
    ensures grow { (o : List ℕ) → Grows (tree.get text_cmp lists.old o) (tree.get text_cmp lists.new o) }
    ensures others { (o : List ℕ) → eq_by_cmp text_cmp original.now o ≡ false
        → tree.get text_cmp lists.new o ≡ tree.get text_cmp lists.old o }
    ensures made { OnOk result (IsSome (tree.get text_cmp lists.new original.now)) }
{
    if !contains_rising(lists, original) {
        let original = original.try_clone()?;
        lists.insert(original, Listing::new())?;
    }
    Ok(())
}

/// Makes room in the list of an original, and returns the length that it may then have.
fn reserve(
    lists: &mut Lists,
    alloc: Global,
    original: &Original,
    more: usize,
) -> Result<usize, NoMemory>
    ensures grow { (o : List ℕ) → Grows (tree.get text_cmp lists.old o) (tree.get text_cmp lists.new o) }
    ensures others { (o : List ℕ) → eq_by_cmp text_cmp original.now o ≡ false
        → tree.get text_cmp lists.new o ≡ tree.get text_cmp lists.old o }
    ensures made { IfOk result
        (λ most. IfSome (tree.get text_cmp lists.new original.now)
        (λ t. (most ≡ length t.entries + more) × (most ≤ t.room))) }
{
    match lists.get_mut(original) {
        Some(list) => list.reserve(alloc, more),
        None => Ok(0),
    }
}

/// Has the list of an original share the memory of another, if both list the same and can: see `Listing::share_with`.
pub(crate) fn share_list(lists: &mut Lists, original: &Original, others: &Lists)
    ensures { (o : List ℕ) → tree.get text_cmp lists.new o ≡ tree.get text_cmp lists.old o }
{
    if let Some(other) = others.get(original) {
        if let Some(list) = lists.get_mut(original) {
            list.share_with(other);
        }
    }
}

/// Drops the lists of these originals that are empty. Takes no memory.
pub(crate) fn drop_empty(lists: &mut Lists, all: &StepLists)
    ensures gone { (o : List ℕ) → IsSome (tree.get text_cmp all.now o) → IsListed (tree.get text_cmp lists.new o) }
    ensures tallies { (o : List ℕ) → tally_of lists.new o ≡ tally_of lists.old o }
    ensures listed { (o : List ℕ) → IsListed (tree.get text_cmp lists.old o)
        → tree.get text_cmp lists.new o ≡ tree.get text_cmp lists.old o }
{
    for original in all.keys() {
        drop_if_empty(lists, original);
    }
}

fn drop_if_empty(lists: &mut Lists, original: &Original)
    ensures gone { IsListed (tree.get text_cmp lists.new original.now) }
    ensures tallies { (o : List ℕ) → tally_of lists.new o ≡ tally_of lists.old o }
    ensures listed { (o : List ℕ) → IsListed (tree.get text_cmp lists.old o)
        → tree.get text_cmp lists.new o ≡ tree.get text_cmp lists.old o }
{
    if is_empty_at(lists, original) {
        lists.remove(original);
    }
}

/// Whether an original has a list, and the list is empty.
fn is_empty_at(lists: &Lists, original: &Original) -> bool
    ensures { IsTrue result ↔ ¬ (IsListed (tree.get text_cmp lists.now original.now)) }
{
    match lists.get(original) {
        Some(list) => list.mementos().is_empty(),
        None => false,
    }
}

/// Counts the steps of each original in its list, and drops the lists that become empty.
pub(crate) fn recount_all(lists: &mut Lists, lifted: &mut Tally, all: StepLists)
    requires tally { (o : List ℕ) → IsTally (tally_of lists.old o) }
    requires can { (o : List ℕ) → CanCount (tally_of lists.old o) (steps_of all o) }
    requires room { HaveRoom 0 all lists.old lifted.old.room }
    requires settled { lifted.old.entries ≡ [] }
    requires listed { (o : List ℕ) → tree.get text_cmp all o ≡ None → IsListed (tree.get text_cmp lists.old o) }
    ensures recounted { (o : List ℕ) → IsRecounted (tally_of lists.old o) (steps_of all o) (tally_of lists.new o) }
    ensures listed { (o : List ℕ) → IsListed (tree.get text_cmp lists.new o) }
{
    for entry in all {
        let (original, steps) = entry;
        recount_list(lists, lifted, &original, steps);
    }
}

/// Counts the steps in the list of an original, and drops the list if nothing is left.
fn recount_list(lists: &mut Lists, lifted: &mut Tally, original: &Original, steps: Steps)
    requires tally { IsTally (tally_of lists.old original.now) }
    requires can { CanCount (tally_of lists.old original.now) (steps_in steps) }
    requires room { HasRoom 0 (tree.get text_cmp lists.old original.now) lifted.old.room steps }
    requires settled { lifted.old.entries ≡ [] }
    ensures recounted { IsRecounted (tally_of lists.old original.now) (steps_in steps)
        (tally_of lists.new original.now) }
    ensures others { (o : List ℕ) → eq_by_cmp text_cmp original.now o ≡ false
        → tree.get text_cmp lists.new o ≡ tree.get text_cmp lists.old o }
    ensures settled { lifted.new.entries ≡ [] }
    ensures lifted_room { lifted.old.room ≤ lifted.new.room }
    ensures listed { IsListed (tree.get text_cmp lists.new original.now) }
{
    let Some(list) = lists.get_mut(original) else {
        return;
    };
    list.recount(lifted, steps);
    if list.mementos().is_empty() {
        lists.remove(original);
    }
}
