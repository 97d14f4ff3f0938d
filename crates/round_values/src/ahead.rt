//! Which harvests aren't taken, since they are too far ahead of the clock.
ghost use Rattle.std.specs.Prelude.{◌≡◌, ◌==◌, ◌<◌, ◌&&◌, ◌^◌, ◌-◌, ◌∷◌, [], IfOk, OnOk, filter, length, min};
ghost use Rattle.std.specs.FinMap as map;
ghost use Rattle.memento_sets.specs.Sets as set;
ghost use Rattle.harvest_lattice.specs.Lattice.{join};
ghost use Rattle.harvest_lattice.specs.Knowledge.{adds, lat};
ghost use Rattle.round_values.specs.Ahead as spec;
ghost use Rattle.round_values.specs.Ahead.{IsTimely};

use crate::times::Second;
use harvest_lattice::{Entry, Part, Row, State};
use memento_sets::Mementos;
use memento_time::{ArchiveName, Memento, NoMemory, Original};
use std::alloc::Global;

/// The last second whose harvests are taken: so many seconds ahead of now, as far as 64 bits count; all are without a
/// limit.
pub fn last_taken(ahead: Option<u64>, now: Second) -> Second
    ensures { result.0 ≡ spec.last_taken ahead now.0 }
{
    match ahead {
        Some(seconds) => Second(now.0.saturating_add(seconds)),
        None => Second(u64::MAX),
    }
}

/// Whether a harvest isn't taken.
pub fn is_ahead(revision: u64, last: Second) -> bool
    ensures { result ≡ spec.is_ahead last.0 revision }
{
    last.0 < revision
}

/// What is taken of a state.
#[derive(Drop)]
pub struct Timely {
    pub state: State,
    /// How many harvests aren't taken.
    pub left_out: u64,
}

/// What is taken of a state, and how many harvests aren't, since they are ahead of a second.
///
/// Where none is, that is the state itself. Otherwise it takes time and memory in the size of the state.
pub fn take_timely(alloc: Global, state: State, last: Second) -> Result<Timely, NoMemory>
    ensures state { IfOk result (λ taken. taken.state ≡ spec.taken last.0 state) }
    ensures left_out { IfOk result (λ taken. taken.left_out ≡ min (spec.left_out last.0 state) (2 ^ 64 - 1)) }
{
    let left_out = count_ahead(&state, last);
    if left_out == 0 {
        return Ok(Timely { state, left_out });
    }
    let state = without_ahead(alloc, &state, last)?;
    Ok(Timely { state, left_out })
}

/// How many harvests of a state are ahead of a second, as far as 64 bits count.
fn count_ahead(state: &State, last: Second) -> u64
    ensures { result ≡ min (spec.left_out last.0 state.now) (2 ^ 64 - 1) }
{
    let mut count = 0u64;
    for row in state.rows() {
        let (_, entry) = row;
        count = count.saturating_add(count_in(entry, last));
    }
    count
}

/// How many revisions of an entry are ahead of a second.
fn count_in(entry: &Entry, last: Second) -> u64
    ensures { result ≡ length (filter (spec.is_ahead last.0) (map.keys entry.now.revisions)) }
{
    let mut count = 0;
    for k in 0..entry.revisions() {
        count += u64::from(is_ahead(entry.revision(k), last));
    }
    count
}

/// The harvests of a state that aren't ahead of a second.
fn without_ahead(alloc: Global, state: &State, last: Second) -> Result<State, NoMemory>
    ensures { IfOk result (λ rest. rest ≡ spec.taken last.0 state.now) }
{
    let mut rest = State::new(alloc);
    for ((archive, original), entry) in state.rows() {
        add_entry(alloc, &mut rest, archive, original, entry, last)?;
    }
    Ok(rest)
}

/// Adds the harvests of an entry that aren't ahead of a second.
fn add_entry(
    alloc: Global,
    rest: &mut State,
    archive: ArchiveName,
    original: &Original,
    entry: &Entry,
    last: Second,
) -> Result<(), NoMemory>
    ensures { OnOk result (rest.new ≡ join rest.old (spec.taken_of last.0 (archive, original.now) entry.now)) }
{
    for k in 0..entry.revisions() {
        let revision = entry.revision(k);
        if !is_ahead(revision, last) {
            let is_whole = is_whole_at(entry, k);
            let part = part_of(alloc, revision, entry.mementos(k))?;
            add_part(alloc, rest, archive, original, is_whole, part)?;
        }
    }
    Ok(())
}

/// Whether the revision at this place of an entry is its whole one.
fn is_whole_at(entry: &Entry, k: usize) -> bool
    ensures { result ≡ ((k == 0) && entry.now.is_whole) }
{
    k == 0 && entry.whole().is_some()
}

/// A revision with these mementos.
fn part_of(alloc: Global, revision: u64, mementos: &[Memento]) -> Result<Part, NoMemory>
    ensures { IfOk result (λ part. part ≡ (revision, set.from_list mementos.now)) }
{
    let mementos = Mementos::of(mementos.to_vec(alloc)?);
    Part::new(revision, mementos)
}

/// Adds the harvest of one revision, whole or not.
fn add_part(
    alloc: Global,
    rest: &mut State,
    archive: ArchiveName,
    original: &Original,
    is_whole: bool,
    part: Part,
) -> Result<(), NoMemory>
    ensures { OnOk result
        (rest.new ≡ join rest.old (lat (spec.harvest_of (archive, original.now) is_whole part ∷ []))) }
{
    let one = state_of(alloc, archive, original.try_clone()?, is_whole, part)?;
    rest.join(&one)
}

/// The state of the harvest of one revision, whole or not.
fn state_of(
    alloc: Global,
    archive: ArchiveName,
    original: Original,
    is_whole: bool,
    part: Part,
) -> Result<State, NoMemory>
    ensures { IfOk result (λ one. one ≡ lat (spec.harvest_of (archive, original) is_whole part ∷ [])) }
{
    let mut rows = Vec::new(alloc);
    rows.push(Row {
        archive,
        original,
        entry: Entry::of_part(is_whole, part),
    })?;
    match State::of_rows(alloc, rows)? {
        Some(one) => Ok(one),
        None => unreachable!(),
    }
}

/// What is taken of a state is at most the state, so whoever takes the state later has just the state. Where nothing is
/// ahead, it is the state itself.
pub fn what_is_taken()
    ensures { IsTimely }
{}
