//! What an entry begins and ceases to show.
ghost use Rattle.std.specs.Prelude.{◌≡◌, ◌+◌, ◌<◌, ◌≤◌, ◌⊎◌, IfOk, length, slice_index_or};
ghost use Rattle.std.specs.declared.cmp.Ordering.TheVariants.{Less as IsLess, Equal as IsEqual, Greater as IsGreater};
ghost use Rattle.memento_time.specs.declared.mementos.Memento.{Memento};
ghost use Rattle.memento_index.specs.Counts.{beginnings, endings, occurrences};

use crate::counted::Step;
use memento_time::{Clean, Memento, NoMemory};
use std::alloc::Global;
use std::cmp::Ordering;

/// Which of two lists has the next memento at these places. At least one of the places is in its list.
fn next_at(before: &[Memento], i: usize, after: &[Memento], j: usize) -> Ordering
    requires { (i < length before.now) ⊎ (j < length after.now) }
    ensures less { result ≡ IsLess → i < length before.now }
    ensures greater { result ≡ IsGreater → j < length after.now }
    ensures equal { result ≡ IsEqual
        → (i < length before.now) × (j < length after.now)
        × ((d : Memento) → slice_index_or before.now i d ≡ slice_index_or after.now j d) }
{
    if j >= after.len() {
        return Ordering::Less;
    }
    if i >= before.len() {
        return Ordering::Greater;
    }
    before[i].cmp(&after[j])
}

/// A copy of a memento. Its address has a buffer of its own, unless it is to share the memento's.
fn copy_of(alloc: Global, memento: &Memento, shares: bool) -> Result<Memento, NoMemory>
    ensures { IfOk result (λ copy. copy ≡ memento.now) }
{
    if shares {
        return memento.try_clone();
    }
    // An address is clean.
    match Clean::new(alloc, memento.uri.as_bytes()) {
        Ok(uri) => Ok(Memento {
            at: memento.at,
            uri,
        }),
        Err(_) => Err(NoMemory),
    }
}

/// What an entry ceases and begins to show when it showed the list `before` and then shows the list `after`. The steps
/// are in order if the lists are.
///
/// If it showed nothing before, all of the list `after` begins, and the steps share its addresses. Otherwise no address
/// that begins keeps the others in its buffer alive.
pub(crate) fn steps_between(
    alloc: Global,
    before: &[Memento],
    after: &[Memento],
) -> Result<Vec<Step>, NoMemory>
    ensures counts { IfOk result
        (λ steps. (m : Memento)
        → beginnings steps.items m + occurrences before.now m ≡ endings steps.items m + occurrences after.now m) }
    ensures shown { IfOk result (λ steps. (m : Memento) → endings steps.items m ≤ occurrences before.now m) }
{
    let mut steps = Vec::new(alloc);
    let mut i = 0;
    let mut j = 0;
    while i < before.len() || j < after.len() {
        match next_at(before, i, after, j) {
            Ordering::Less => {
                let memento = before[i].try_clone()?;
                steps.push(Step {
                    memento,
                    begins: false,
                })?;
                i += 1;
            }
            Ordering::Equal => {
                i += 1;
                j += 1;
            }
            Ordering::Greater => {
                let memento = copy_of(alloc, &after[j], before.is_empty())?;
                steps.push(Step {
                    memento,
                    begins: true,
                })?;
                j += 1;
            }
        }
    }
    Ok(steps)
}
