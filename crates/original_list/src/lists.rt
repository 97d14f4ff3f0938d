//! Lists in which each original stands once.
ghost use Rattle.std.specs.Prelude.{◌≡◌, ℕ, List, ◌++◌, ◌||◌, bytes_eq, IfOk, OnOk};
ghost use Rattle.original_sets.specs.Sets.{stands};
ghost use Rattle.original_list.specs.Lists.{AreEachOnce, each_once, new_after, unless_before};

use memento_time::{NoMemory, Original};
use original_sets::{Key, OriginalSet};
use std::alloc::Global;
use std::hash::RandomState;

/// Adds an original that isn't seen yet.
fn add_one(
    seen: &mut OriginalSet,
    list: &mut Vec<Original>,
    original: &Original,
) -> Result<(), NoMemory>
    ensures seen { OnOk result ((other : List ℕ)
        → stands seen.new other ≡ (bytes_eq other original.now || stands seen.old other)) }
    ensures list { OnOk result (list.new.items ≡ list.old.items ++ unless_before seen.old original.now) }
{
    if seen.insert(Key::new(original)?)? {
        list.push(original.try_clone()?)?;
    }
    Ok(())
}

/// Adds those of more originals that aren't seen yet.
fn add_new(
    seen: &mut OriginalSet,
    list: &mut Vec<Original>,
    more: &[Original],
) -> Result<(), NoMemory>
    ensures seen { OnOk result ((other : List ℕ)
        → stands seen.new other ≡ (stands seen.old other || stands more.now other)) }
    ensures list { OnOk result (list.new.items ≡ list.old.items ++ new_after seen.old more.now) }
{
    for original in more {
        add_one(seen, list, original)?;
    }
    Ok(())
}

/// The originals of one list and then those of another, each where it stands first. They share their texts with the
/// lists.
pub fn each_once(
    alloc: Global,
    first: &[Original],
    second: &[Original],
    keys: RandomState,
) -> Result<Vec<Original>, NoMemory>
    ensures { IfOk result (λ list. list.items ≡ each_once (first.now ++ second.now)) }
{
    let room = first.len().saturating_add(second.len());
    let mut seen = OriginalSet::with_room(alloc, room, keys)?;
    let mut list = Vec::new(alloc);
    add_new(&mut seen, &mut list, first)?;
    add_new(&mut seen, &mut list, second)?;
    Ok(list)
}

/// A list in which each original stands once has the same originals as the list, none of them twice, and begins with
/// those of each of its beginnings.
pub fn each_stands_once()
    ensures { AreEachOnce }
{}
