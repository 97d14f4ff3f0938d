//! Lists of parts in order.
ghost use Rattle.std.specs.Prelude.{◌≡◌, ◌∷◌, ◌++◌, ◌<◌, ◌≤◌, length, reverse, map as map_list, IfOk, IfSome, OnOk, None, cond, nat_lt, option_copied, slice_get};
ghost use Rattle.std.specs.List.{All};
ghost use Rattle.std.specs.Ordering.{nat_cmp};
ghost use Rattle.std.specs.FinMap as map;
ghost use Rattle.harvest_lattice.specs.Knowledge.{items_of, union_all};
ghost use Rattle.harvest_lattice.specs.Parts.{PartsRise, IsPlace, IsParted, is_of, found_set, put_part, put_parts, with_standing, whole_first};

use crate::part::Part;
use memento_time::{Memento, NoMemory};
use std::cmp::Ordering;

/// How many parts have a lesser revision.
pub(crate) fn count_below(parts: &[Part], revision: u64) -> usize
    requires { PartsRise parts.now }
    ensures within { result ≤ length parts.now }
    ensures place { IsPlace parts.now revision result }
{
    parts.partition_point(
        |part: &Part| -> bool
            ensures { result ≡ nat_lt part.now.0 revision }
        { part.revision() < revision },
    )
}

/// The part at a revision.
pub(crate) fn find(parts: &[Part], revision: u64) -> Option<&Part>
    requires { PartsRise parts.now }
    ensures { found_set (option_copied result) ≡ map.find nat_cmp revision parts.now }
{
    part_at(parts, count_below(parts, revision), revision)
}

/// The part at a place, if it has this revision.
fn part_at(parts: &[Part], place: usize, revision: u64) -> Option<&Part>
    ensures { option_copied result ≡ cond (is_of revision (slice_get parts.now place)) (slice_get parts.now place) None }
{
    match parts.get(place) {
        Some(part) => {
            if part.revision() == revision {
                Some(part)
            } else {
                None
            }
        }
        None => None,
    }
}

/// Merges both lists. Parts of the same revision are united, and a part that comes shares the list of the part before
/// it if the two have the same mementos. Takes one walk over both.
pub(crate) fn unite(standing: Vec<Part>, coming: &[Part]) -> Result<Vec<Part>, NoMemory>
    requires { PartsRise coming.now }
    ensures { IfOk result (λ both. both.items ≡ put_parts standing.items coming.now) }
{
    let mut both = Vec::with_capacity(*standing.allocator(), standing.len())?;
    let mut waiting = standing;
    waiting.reverse();
    for part in coming {
        place(&mut both, &mut waiting, part)?;
    }
    waiting.reverse();
    both.append(&mut waiting)?;
    Ok(both)
}

/// Appends a part to a list of lesser ones, after those waiting parts that come before it. Of the waiting parts, the
/// least stands last.
fn place(both: &mut Vec<Part>, waiting: &mut Vec<Part>, part: &Part) -> Result<(), NoMemory>
    requires { All (λ p. p.0 < part.now.0) both.old.items }
    ensures placed { OnOk result
        (both.new.items ++ reverse waiting.new.items
        ≡ put_part (both.old.items ++ reverse waiting.old.items) part.now) }
    ensures last { OnOk result (All (λ p. p.0 ≤ part.now.0) both.new.items) }
{
    let standing = pass(both, waiting, part.revision())?;
    let placed = beside(standing, part, both.last())?;
    both.push(placed)?;
    Ok(())
}

/// Appends to a list the waiting parts of a lesser revision, and returns the part of that revision, if one waits.
fn pass(
    both: &mut Vec<Part>,
    waiting: &mut Vec<Part>,
    revision: u64,
) -> Result<Option<Part>, NoMemory>
    requires { All (λ p. p.0 < revision) both.old.items }
    ensures { IfOk result
        (λ here. IsParted revision (both.old.items ++ reverse waiting.old.items) both.new.items here
        (reverse waiting.new.items)) }
{
    while let Some(next) = waiting.pop() {
        match next.revision().cmp(&revision) {
            Ordering::Less => both.push(next)?,
            Ordering::Equal => return Ok(Some(next)),
            Ordering::Greater => {
                waiting.push(next)?;
                return Ok(None);
            }
        }
    }
    Ok(None)
}

/// A part, united with what stands at its revision, if something does; otherwise with the list of the part before it,
/// if the two have the same mementos.
fn beside(standing: Option<Part>, part: &Part, before: Option<&Part>) -> Result<Part, NoMemory>
    ensures { IfOk result (λ both. both ≡ with_standing standing part.now) }
{
    if let Some(standing) = standing {
        return standing.united(part);
    }
    match before {
        Some(before) => part.like(before),
        None => part.try_clone(),
    }
}

/// Makes each part share the list of the part before it if the two have the same mementos.
pub(crate) fn share_alike(parts: &mut Vec<Part>) -> Result<(), NoMemory>
    ensures { parts.new.items ≡ parts.old.items }
{
    for k in 1..parts.len() {
        let alike = parts[k].like(&parts[k - 1])?;
        parts[k] = alike;
    }
    Ok(())
}

/// A part that has the mementos of all parts, if each part has those of all parts before it or has none other than
/// those.
pub(crate) fn widest<'a>(first: &'a Part, later: &'a [Part]) -> Option<&'a Part>
    ensures { IfSome result (λ part. part.now.1 ≡ union_all (map_list (λ p. p.1) (first.now ∷ later.now))) }
{
    let mut widest = first;
    for part in later {
        if part.set().is_subset(widest.set()) {
            continue;
        }
        if !widest.set().is_subset(part.set()) {
            return None;
        }
        widest = part;
    }
    Some(widest)
}

/// Whether each revision is less than the next.
pub(crate) fn parts_rise(parts: &[Part]) -> bool
    ensures { result ≡ map.is_sorted nat_cmp parts.now }
{
    for k in 1..parts.len() {
        if parts[k - 1].revision() >= parts[k].revision() {
            return false;
        }
    }
    true
}

/// Whether the whole revision, if there is one, is that of the first part.
pub(crate) fn is_whole_first(whole: Option<u64>, parts: &[Part]) -> bool
    ensures { result ≡ whole_first whole parts.now }
{
    let Some(whole) = whole else {
        return true;
    };
    match parts.first() {
        Some(first) => first.revision() == whole,
        None => false,
    }
}

pub(crate) fn append_parts(list: &mut Vec<Memento>, parts: &[Part]) -> Result<(), NoMemory>
    ensures { OnOk result (list.new.items ≡ list.old.items ++ items_of parts.now) }
{
    for part in parts {
        append_copies(list, part.mementos())?;
    }
    Ok(())
}

/// Appends copies of these mementos. After an error, some of them may be in the list.
pub(crate) fn append_copies(list: &mut Vec<Memento>, mementos: &[Memento]) -> Result<(), NoMemory>
    ensures { OnOk result (list.new.items ≡ list.old.items ++ mementos.now) }
{
    for memento in mementos {
        list.push(memento.try_clone()?)?;
    }
    Ok(())
}
