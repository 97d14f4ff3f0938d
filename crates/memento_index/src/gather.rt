//! What changes of a state begin and cease to show.
ghost use Rattle.std.specs.Prelude.{◌≡◌, ℕ, List, [], false, cond, IsTrue, IfOk, OnOk, None};
ghost use Rattle.std.specs.Arc.{arc_value};
ghost use Rattle.std.specs.BTreeMap as tree;
ghost use Rattle.std.specs.FinMap as map;
ghost use Rattle.std.specs.Ordering.{eq_by_cmp};
ghost use Rattle.memento_time.specs.Mementos.{text_cmp};
ghost use Rattle.memento_sets.specs.Sets as set;
ghost use Rattle.harvest_lattice.specs.Rows.{row_entry};
ghost use Rattle.memento_index.specs.Lists.{shared_mementos, steps_in, steps_of, tally_of, FitsList, FitLists, AreNews};
ghost use Rattle.memento_index.specs.Lists.{IsNewsAt, IsShifted, AreStepped, AreGathered};
ghost use Rattle.memento_index.specs.Tallies.{each_once};

use crate::counted::{Step, Steps};
use crate::lists::{Lists, StepLists};
use crate::replacement::Replacement;
use crate::steps::steps_between;
use harvest_lattice::{Changes, Row, State};
use memento_sets::{contains_rising, get_rising};
use memento_time::{Items, NoMemory, Original};
use std::alloc::Global;
use std::collections::BTreeMap;

/// The steps of each original. If a single row replaces everything that is listed of an original, that row gives the
/// new list.
pub(crate) fn gather_steps(
    alloc: Global,
    state: &State,
    lists: &Lists,
    changes: &Changes,
) -> Result<StepLists, NoMemory>
    requires { AreNews state.now changes.now }
    ensures gathered { IfOk result (AreGathered state.now (map.entries changes.now)) }
    ensures fit { IfOk result (FitLists lists.now) }
{
    let mut all = BTreeMap::new(alloc);
    for row in changes.rows() {
        gather_row(&mut all, alloc, state, lists, row)?;
    }
    Ok(all)
}

/// Adds the steps of one row.
fn gather_row(
    all: &mut StepLists,
    alloc: Global,
    state: &State,
    lists: &Lists,
    row: &Row,
) -> Result<(), NoMemory>
    requires news { IsNewsAt state.now (row_entry row.now) }
    requires fit { FitLists lists.now all.old }
    ensures shifted { OnOk result
        (IsShifted state.now (row_entry row.now) (steps_of all.old row.now.original)
        (steps_of all.new row.now.original)) }
    ensures others { OnOk result
        ((o : List ℕ) → eq_by_cmp text_cmp row.now.original o ≡ false → steps_of all.new o ≡ steps_of all.old o) }
    ensures fit { OnOk result (FitLists lists.now all.new) }
{
    let steps = take_more_steps(all, alloc, state, lists, row)?;
    // A list of which nothing begins or ceases isn't touched: it needn't be copied.
    if steps.len() == 0 {
        return Ok(());
    }
    let original = row.original().try_clone()?;
    all.insert(original, steps)?;
    Ok(())
}

/// Takes out the steps of a row's original and adds the row's own.
fn take_more_steps(
    all: &mut StepLists,
    alloc: Global,
    state: &State,
    lists: &Lists,
    row: &Row,
) -> Result<Steps, NoMemory>
    requires { IsNewsAt state.now (row_entry row.now) }
    ensures shifted { IfOk result
        (λ steps. IsShifted state.now (row_entry row.now) (steps_of all.old row.now.original) (steps_in steps)) }
    ensures gone { OnOk result
        ((o : List ℕ)
        → tree.get text_cmp all.new o
        ≡ cond (eq_by_cmp text_cmp row.now.original o) None (tree.get text_cmp all.old o)) }
    ensures fit { IfOk result (FitsList (tally_of lists.now row.now.original)) }
{
    let made = Replacement::by(state, row)?;
    if replaces_all(all, lists, row.original(), &made) {
        return Ok(Steps::All(made));
    }
    let mut steps = take_steps(all, alloc, row.original())?;
    push_steps(&mut steps, alloc, &made)?;
    Ok(Steps::Each(Items::of(steps)))
}

/// Whether exactly the mementos that are replaced are listed of an original, each shown by one archive.
fn replaces_all(
    all: &StepLists,
    lists: &Lists,
    original: &Original,
    replacement: &Replacement,
) -> bool
    ensures alone { IsTrue result → tree.get text_cmp all.now original.now ≡ None }
    ensures listed { IsTrue result
        → tally_of lists.now original.now ≡ each_once (shared_mementos replacement.now.before) }
{
    if contains_rising(all, original) {
        return false;
    }
    match get_rising(lists, original) {
        Some(list) => list.has_just(replacement.before()),
        None => replacement.before().is_empty(),
    }
}

/// Takes out the steps of an original, one by one.
fn take_steps(
    all: &mut StepLists,
    alloc: Global,
    original: &Original,
) -> Result<Vec<Step>, NoMemory>
    ensures taken { IfOk result (λ steps. steps.items ≡ steps_of all.old original.now) }
    ensures gone { (o : List ℕ)
        → tree.get text_cmp all.new o ≡ cond (eq_by_cmp text_cmp original.now o) None (tree.get text_cmp all.old o) }
{
    match all.remove(original) {
        Some(steps) => steps.into_vec(alloc),
        None => Ok(Vec::new(alloc)),
    }
}

/// Adds what an archive begins and ceases to show.
fn push_steps(
    steps: &mut Vec<Step>,
    alloc: Global,
    replacement: &Replacement,
) -> Result<(), NoMemory>
    ensures { OnOk result
        (AreStepped (shared_mementos replacement.now.before) (set.items (arc_value replacement.now.after))
        steps.old.items steps.new.items) }
{
    let mut more = steps_between(alloc, replacement.before(), replacement.after())?;
    if steps.is_empty() {
        *steps = more;
        return Ok(());
    }
    steps.append(&mut more)?;
    Ok(())
}
