//! What stays where more is known than may be: what is listed, and the youngest of the rest.
ghost use Rattle.std.specs.Prelude.{◌≡◌, ◌≤◌, IfOk, OnOk};
ghost use Rattle.retention.specs.Amounts.{count, mementos};
ghost use Rattle.retention.specs.Floors.{AllYoung, AreAmong, AreYoung};
ghost use Rattle.retention.specs.Restriction.{restrict};
ghost use Rattle.retention.specs.Rules.{is_unlisted, keeps};

use crate::ages::Ages;
use crate::amounts::{Amount, grown_by};
use crate::floors::{floor_for, left_above, young_originals};
use crate::restricting::{Retention, Unlisted, restricted};
use harvest_lattice::State;
use memento_time::NoMemory;
use original_sets::{Key, OriginalSet};
use std::alloc::Global;
use std::hash::RandomState;

/// What stays of a state.
#[derive(Drop)]
pub struct Remainder {
    pub state: State,
    /// The unlisted originals that stay.
    pub wanted: OriginalSet,
    /// From this second on an unlisted original is young.
    pub floor: u64,
}

/// How much is known of unlisted originals that isn't withdrawn. Takes time in the number of all entries, and no
/// memory. `NoMemory` also if no 64-bit number counts it.
pub fn unlisted_amount(state: &State, unlisted: &Unlisted<'_>) -> Result<Amount, NoMemory>
    ensures entries { IfOk result (λ all. all.entries
        ≡ count (restrict (is_unlisted unlisted.now.withdrawn.now unlisted.now.listed.now) state.now)) }
    ensures mementos { IfOk result (λ all. all.mementos
        ≡ mementos (restrict (is_unlisted unlisted.now.withdrawn.now unlisted.now.listed.now) state.now)) }
{
    let mut all = Amount::NONE;
    for row in state.rows() {
        let ((archive, original), entry) = row;
        if unlisted.has(archive, original)? {
            all = grown_by(all, entry)?;
        }
    }
    Ok(all)
}

/// Adds an original. Returns whether it is new.
fn add(wanted: &mut OriginalSet, original: Key) -> Result<bool, NoMemory>
    ensures { OnOk result (AreAmong wanted.old wanted.new) }
{
    let added = wanted.insert(original)?;
    Ok(added)
}

/// Adds originals whose greatest revision is this second, in order, each if so much is left for it.
fn fill(
    wanted: &mut OriginalSet,
    state: &State,
    ages: &Ages,
    second: u64,
    most: Amount,
) -> Result<(), NoMemory>
    ensures { OnOk result (AreAmong wanted.old wanted.new) }
{
    let mut left = most;
    for row in state.rows() {
        let ((_, original), _) = row;
        let key = Key::new(original)?;
        if let Some(rest) = ages.left_with(&key, second, left) {
            if add(wanted, key)? {
                left = rest;
            }
        }
    }
    Ok(())
}

/// The originals of a state of unlisted ones that are young by this floor, and of the second before it those that
/// `left` has room for: many may have been looked at in one second.
fn filled(
    alloc: Global,
    state: &State,
    ages: &Ages,
    floor: u64,
    left: Amount,
    keys: RandomState,
) -> Result<OriginalSet, NoMemory>
    ensures { IfOk result (AllYoung floor state.now) }
{
    let mut wanted = young_originals(alloc, state, floor, keys)?;
    match floor.checked_sub(1) {
        Some(second) => {
            fill(&mut wanted, state, ages, second, left)?;
            Ok(wanted)
        }
        None => Ok(wanted),
    }
}

/// The floor, or the other if that is later; the greatest second there can be if there is no other.
fn later(floor: u64, other: Option<u64>) -> u64
    ensures { floor ≤ result }
{
    match other {
        Some(other) if floor < other => other,
        Some(_) => floor,
        None => u64::MAX,
    }
}

/// The youngest originals of a state of unlisted ones, as many as `most` allows, and the floor from which on all are
/// among them. Only if even those of the greatest second there can be are too many, some of these are left out.
fn youngest(
    alloc: Global,
    state: &State,
    floor: u64,
    most: Amount,
    keys: RandomState,
) -> Result<(OriginalSet, u64), NoMemory>
    ensures young { IfOk result (λ chosen. AreYoung chosen.1 state.now chosen.0) }
    ensures floor { IfOk result (λ chosen. floor ≤ chosen.1) }
{
    let ages = Ages::of(alloc, state, keys)?;
    let of_entries = ages.of_entries(alloc, state)?;
    let floor = later(floor, floor_for(&of_entries, most));
    match left_above(&of_entries, floor, most) {
        Some(left) => {
            let wanted = filled(alloc, state, &ages, floor, left, keys)?;
            Ok((wanted, floor))
        }
        None => {
            let mut wanted = OriginalSet::with_room(alloc, 0, keys)?;
            fill(&mut wanted, state, &ages, u64::MAX, most)?;
            Ok((wanted, u64::MAX))
        }
    }
}

/// What stays of a state: what is listed, and of the unlisted originals the youngest, so that no more than `most` is
/// known of them. What is withdrawn doesn't stay. The floor is no lower than the one of before, and each unlisted
/// original that is young by it stays, if not even the greatest second there can be has too many. The keys of hashes
/// are to be secret where readers choose originals.
pub fn without_oldest(
    alloc: Global,
    state: &State,
    unlisted: &Unlisted<'_>,
    floor: u64,
    most: Amount,
    keys: RandomState,
) -> Result<Remainder, NoMemory>
    ensures state { IfOk result (λ remainder. remainder.state
        ≡ restrict (keeps unlisted.now.withdrawn.now unlisted.now.listed.now remainder.wanted) state.now) }
    ensures entries { IfOk result (λ remainder. count
        (restrict (is_unlisted unlisted.now.withdrawn.now unlisted.now.listed.now) remainder.state) ≤ most.entries) }
    ensures mementos { IfOk result (λ remainder. mementos
        (restrict (is_unlisted unlisted.now.withdrawn.now unlisted.now.listed.now) remainder.state) ≤ most.mementos) }
    ensures young { IfOk result (λ remainder. AreYoung remainder.floor
        (restrict (is_unlisted unlisted.now.withdrawn.now unlisted.now.listed.now) state.now) remainder.wanted) }
    ensures floor { IfOk result (λ remainder. floor ≤ remainder.floor) }
{
    let others = unlisted.of(alloc, state)?;
    let (wanted, floor) = youngest(alloc, &others, floor, most, keys)?;
    drop(others);
    let rule = Retention {
        withdrawn: unlisted.withdrawn,
        listed: unlisted.listed,
        wanted: &wanted,
    };
    let state = restricted(alloc, state, &rule)?;
    // Counted anew, so that the bound doesn't rest on the ages.
    if !unlisted_amount(&state, unlisted)?.fits(most) {
        return Err(NoMemory);
    }
    Ok(Remainder {
        state,
        wanted,
        floor,
    })
}
