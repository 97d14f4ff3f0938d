//! How young what is known of originals is, and what a floor keeps of it.
ghost use Rattle.std.specs.Prelude.{◌≡◌, ◌⊎◌, ◌+◌, ◌≤◌, ℕ, List, ◌||◌, ◌&&◌, bytes_eq, nat_le, IfOk, OnOk, OnErr, IfSome, None, IsTrue, ◌↔◌};
ghost use Rattle.original_sets.specs.Sets.{stands};
ghost use Rattle.retention.specs.Floors.{is_from, is_young, newest};

use crate::ages::Age;
use crate::amounts::Amount;
use harvest_lattice::{Entry, State};
use memento_time::{NoMemory, Original};
use original_sets::{Key, OriginalSet};
use std::alloc::Global;
use std::hash::RandomState;

/// Whether an entry has a revision that isn't before the floor.
pub fn is_from_floor(entry: &Entry, floor: u64) -> bool
    ensures { result ≡ is_from floor (newest entry.now) }
{
    let revisions = entry.revisions();
    if revisions == 0 {
        return false;
    }
    floor <= entry.revision(revisions - 1)
}

/// Adds an original to a set, if its entry has a revision that isn't before the floor.
fn note_young(
    young: &mut OriginalSet,
    original: &Original,
    entry: &Entry,
    floor: u64,
) -> Result<(), NoMemory>
    ensures { OnOk result ((other : List ℕ) → stands young.new other
        ≡ ((bytes_eq original.now other && is_from floor (newest entry.now)) || stands young.old other)) }
{
    if is_from_floor(entry, floor) {
        young.insert(Key::new(original)?)?;
    }
    Ok(())
}

/// The originals of which some entry has a revision that isn't before the floor. The keys of hashes are to be secret
/// where readers choose originals.
pub fn young_originals(
    alloc: Global,
    state: &State,
    floor: u64,
    keys: RandomState,
) -> Result<OriginalSet, NoMemory>
    ensures { IfOk result (λ young. (original : List ℕ) → stands young original ≡ is_young floor state.now original) }
{
    let mut young = OriginalSet::with_room(alloc, 0, keys)?;
    for row in state.rows() {
        let ((_, original), entry) = row;
        note_young(&mut young, original, entry, floor)?;
    }
    Ok(young)
}

/// What is left of `most` once everything that isn't older than the floor has its place. `None` if that is more.
pub(crate) fn left_above(ages: &[Age], floor: u64, most: Amount) -> Option<Amount> {
    let mut left = most;
    for age in ages {
        if floor <= age.newest {
            left = left.minus(age.amount)?;
        }
    }
    Some(left)
}

/// A floor from which on no more than `most` is known, while more is known from the second before it on, unless the
/// floor is 0. `None` only if more is known even at the greatest revision that there can be.
pub(crate) fn floor_for(ages: &[Age], most: Amount) -> Option<u64> {
    if left_above(ages, 0, most).is_some() {
        return Some(0);
    }
    let mut below = 0u64;
    let mut floor = u64::MAX;
    if left_above(ages, floor, most).is_none() {
        return None;
    }
    while floor - below > 1 {
        let middle = below + (floor - below) / 2;
        if left_above(ages, middle, most).is_some() {
            floor = middle;
        } else {
            below = middle;
        }
    }
    Some(floor)
}
