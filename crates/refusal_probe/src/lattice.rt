//! Calls over sets of mementos, entries, harvests, states and indexes.
use crate::makers::{FIRST_DAY, THIRD_DAY, archive, harvest, mementos, original};
use anyhow::Result;
use harvest_lattice::{Entry, Harvest, Part, Row, State};
use memento_index::{Index, Merge};
use memento_sets::Mementos;
use memento_time::{ArchiveName, Memento, Original, into_packed, packed};
use refused_calls::{Change, Tried, again, insist, share};
use replica_exchange::read_state;
use std::alloc::Global;

const FIRST: &[u8] = b"http://m.example/1";

const SECOND: &[u8] = b"http://m.example/2";

/// Two entries, the first of a whole revision and a part.
pub(crate) const STANDING: &[u8] = b"memento-state 2
entries 2
entry a1 5 2 http://a.example/
at 5 1
946684800 http://m.example/1
at 7 1
946857600 http://m.example/2
entry b1 5 1 http://a.example/
at 5 1
946684800 http://m.example/1
end
";

/// What is news to each of them, and takes the place of some of it.
const COMING: &[u8] = b"memento-state 2
entries 2
entry a1 6 2 http://a.example/
at 6 1
946771200 http://m.example/3
at 7 1
946771200 http://m.example/3
entry b1 - 1 http://a.example/
at 9 1
946771200 http://m.example/3
end
";

/// What the calls are made on, and what comes.
#[derive(Drop)]
struct Known {
    alloc: Global,
    archive: ArchiveName,
    original: Original,
    harvest: Harvest,
    standing: State,
    coming: State,
}

fn make_known(alloc: Global) -> Option<Known> {
    Some(Known {
        alloc,
        archive: archive().ok()?,
        original: original(alloc).ok()?,
        harvest: harvest(alloc, 7, THIRD_DAY, FIRST).ok()?,
        standing: read_state(alloc, STANDING).ok()?,
        coming: read_state(alloc, COMING).ok()?,
    })
}

fn set(alloc: Global, second: u64, uri: &[u8]) -> Option<Mementos> {
    let list = mementos(alloc, second, uri).ok()?;
    Some(Mementos::of(list))
}

fn mine(alloc: Global) -> Option<Mementos> {
    set(alloc, THIRD_DAY, SECOND)
}

fn part(alloc: Global) -> Option<Part> {
    Part::new(1, mine(alloc)?).ok()
}

fn set_of_two(alloc: Global) -> Option<Mementos> {
    let mut both = set(alloc, FIRST_DAY, FIRST)?;
    both.absorb(set(alloc, THIRD_DAY, SECOND)?).ok()?;
    Some(both)
}

/// Calls over sets.
#[derive(Clone, Copy, Debug)]
enum OnSet {
    MementosWithout,
    MementosPacked,
    Packed,
    IntoPacked,
    MementosAbsorb,
    PartNew,
    PartTryClone,
    PartShare,
}

const ON_SETS: [OnSet; 6] = [
    OnSet::MementosWithout,
    OnSet::MementosPacked,
    OnSet::Packed,
    OnSet::IntoPacked,
    OnSet::MementosAbsorb,
    OnSet::PartNew,
];

const SHARING_SETS: [OnSet; 2] = [OnSet::PartTryClone, OnSet::PartShare];

fn absorb(mut mine: Mementos, one: Mementos, other: Mementos) -> Tried {
    let is_answered = mine.absorb(one).is_ok();
    let is_as_before = mine.len() == 1;
    let is_repeated = !is_answered && mine.absorb(other).is_ok();
    Tried::of_change(Change {
        is_answered,
        is_as_before,
        is_repeated,
    })
}

fn try_absorb(alloc: Global) -> Option<Tried> {
    let one = set(alloc, FIRST_DAY, FIRST)?;
    let other = set(alloc, FIRST_DAY, FIRST)?;
    Some(absorb(mine(alloc)?, one, other))
}

/// What a call is made on is made in its own arm: what lives beside it costs the prover at each way out.
fn try_set(alloc: Global, call: OnSet) -> Option<Tried> {
    let is_answered = match call {
        OnSet::MementosWithout => mine(alloc)?.without(&Mementos::of(Vec::new(alloc))).is_ok(),
        OnSet::MementosPacked => set_of_two(alloc)?.packed().is_ok(),
        OnSet::Packed => packed(alloc, mine(alloc)?.as_slice()).is_ok(),
        OnSet::IntoPacked => into_packed(alloc, set_of_two(alloc)?.into_vec()).is_ok(),
        OnSet::MementosAbsorb => return try_absorb(alloc),
        OnSet::PartNew => Part::new(1, mine(alloc)?).is_ok(),
        OnSet::PartTryClone => part(alloc)?.try_clone().is_ok(),
        OnSet::PartShare => part(alloc)?.share().is_ok(),
    };
    Some(Tried::of(is_answered))
}

/// Calls on an entry.
#[derive(Clone, Copy, Debug)]
enum OnEntry {
    EntryWithParts,
    EntryShown,
    EntryShownWith,
    EntryTryClone,
    EntryNews,
    EntryJoined,
    EntryJoin,
    RowTryClone,
}

const ON_ENTRIES: [OnEntry; 5] = [
    OnEntry::EntryWithParts,
    OnEntry::EntryShownWith,
    OnEntry::EntryNews,
    OnEntry::EntryJoined,
    OnEntry::EntryJoin,
];

const SHARING_ENTRIES: [OnEntry; 3] = [
    OnEntry::EntryShown,
    OnEntry::EntryTryClone,
    OnEntry::RowTryClone,
];

fn with_parts(alloc: Global) -> Option<Tried> {
    let first = Part::new(1, set(alloc, FIRST_DAY, FIRST)?).ok()?;
    let second = Part::new(2, set(alloc, FIRST_DAY, FIRST)?).ok()?;
    let parts = vec![in alloc; first, second].ok()?;
    Some(Tried::of(Entry::with_parts(alloc, Some(1), parts).is_ok()))
}

fn join_entry(standing: &Entry, coming: &Entry) -> Option<Tried> {
    let mut entry = standing.try_clone().ok()?;
    let one = coming.try_clone().ok()?;
    let other = coming.try_clone().ok()?;
    let is_answered = entry.join(one).is_ok();
    let is_as_before = entry.le(standing) && standing.le(&entry);
    let is_repeated = !is_answered && entry.join(other).is_ok();
    Some(Tried::of_change(Change {
        is_answered,
        is_as_before,
        is_repeated,
    }))
}

fn row(known: &Known) -> Option<Row> {
    let entry = known.standing.entry(known.archive, &known.original)?;
    Some(Row {
        archive: known.archive,
        original: known.original.try_clone().ok()?,
        entry: entry.try_clone().ok()?,
    })
}

fn try_entry(known: &Known, call: OnEntry) -> Option<Tried> {
    let standing = known.standing.entry(known.archive, &known.original)?;
    let coming = known.coming.entry(known.archive, &known.original)?;
    let is_answered = match call {
        OnEntry::EntryWithParts => return with_parts(known.alloc),
        OnEntry::EntryShown => standing.shown().is_ok(),
        OnEntry::EntryShownWith => standing.shown_with(coming).is_ok(),
        OnEntry::EntryTryClone => standing.try_clone().is_ok(),
        OnEntry::EntryNews => coming.news(standing).is_ok(),
        OnEntry::EntryJoined => standing.joined(coming).is_ok(),
        OnEntry::EntryJoin => return join_entry(standing, coming),
        OnEntry::RowTryClone => row(known)?.try_clone().is_ok(),
    };
    Some(Tried::of(is_answered))
}

/// Calls that make harvests and copy them.
#[derive(Clone, Copy, Debug)]
enum Harvesting {
    HarvestNew,
    HarvestNewPart,
    HarvestTryClone,
    StateShareHarvest,
}

fn new_list(known: &Known) -> Option<Vec<Memento>> {
    mementos(known.alloc, THIRD_DAY, SECOND).ok()
}

fn try_harvest(known: &Known, call: Harvesting) -> Option<Tried> {
    let is_answered = match call {
        Harvesting::HarvestNew => {
            Harvest::new(known.archive, &known.original, 1, new_list(known)?).is_ok()
        }
        Harvesting::HarvestNewPart => {
            Harvest::new_part(known.archive, &known.original, 1, new_list(known)?).is_ok()
        }
        Harvesting::HarvestTryClone => known.harvest.try_clone().is_ok(),
        Harvesting::StateShareHarvest => known.standing.share_harvest(&known.harvest).is_ok(),
    };
    Some(Tried::of(is_answered))
}

/// Calls on a state, and on an index or a merge of it.
#[derive(Clone, Copy, Debug)]
enum OnState {
    StateOfRows,
    StateChanges,
    StateChangesBy,
    StateTryClone,
    StateShareState,
    StateShown,
    IndexChanges,
    MergeTryClone,
    MergeSharedWith,
}

const ON_STATES: [OnState; 9] = [
    OnState::StateOfRows,
    OnState::StateChanges,
    OnState::StateChangesBy,
    OnState::StateTryClone,
    OnState::StateShareState,
    OnState::StateShown,
    OnState::IndexChanges,
    OnState::MergeTryClone,
    OnState::MergeSharedWith,
];

fn try_state(known: &Known, call: OnState) -> Option<Tried> {
    let alloc = known.alloc;
    let is_answered = match call {
        OnState::StateOfRows => {
            let rows = vec![in alloc; row(known)?].ok()?;
            State::of_rows(alloc, rows).is_ok()
        }
        OnState::StateChanges => known.standing.changes(&known.coming).is_ok(),
        OnState::StateChangesBy => known.standing.changes_by(&known.harvest).is_ok(),
        OnState::StateTryClone => known.standing.try_clone().is_ok(),
        OnState::StateShareState => known.standing.share_state(&known.coming).is_ok(),
        OnState::StateShown => known.standing.shown(&known.original).is_ok(),
        OnState::IndexChanges => Index::new(alloc).changes(&merge(&known.coming)?).is_ok(),
        OnState::MergeTryClone => merge(&known.coming)?.try_clone().is_ok(),
        OnState::MergeSharedWith => merge(&known.coming)?.shared_with(&known.standing).is_ok(),
    };
    Some(Tried::of(is_answered))
}

/// A merge of all that a state has.
fn merge(state: &State) -> Option<Merge> {
    Some(Merge::State(state.try_clone().ok()?))
}

/// Calls that change a state.
#[derive(Clone, Copy, Debug)]
enum StateChange {
    StateMerge,
    StateJoin,
    StatePut,
}

const STATE_CHANGES: [StateChange; 3] = [
    StateChange::StateMerge,
    StateChange::StateJoin,
    StateChange::StatePut,
];

fn is_same(state: &State, other: &State) -> bool {
    state.le(other) && other.le(state)
}

fn change_state(state: &mut State, known: &Known, call: StateChange) -> Option<bool> {
    Some(match call {
        StateChange::StateMerge => state.merge(&known.harvest).is_ok(),
        StateChange::StateJoin => state.join(&known.coming).is_ok(),
        StateChange::StatePut => {
            let changes = state.changes(&known.coming).ok()?;
            state.put(changes).is_ok()
        }
    })
}

fn try_state_change(known: &Known, call: StateChange) -> Option<Tried> {
    let mut state = known.standing.try_clone().ok()?;
    if change_state(&mut state, known, call)? {
        return Some(Tried::Answered);
    }
    let is_as_before = is_same(&state, &known.standing);
    let is_repeated = change_state(&mut state, known, call)?;
    Some(Tried::of_change(Change {
        is_answered: false,
        is_as_before,
        is_repeated,
    }))
}

/// Calls that change an index.
#[derive(Clone, Copy, Debug)]
enum IndexChange {
    IndexAbsorb,
    IndexPut,
}

const INDEX_CHANGES: [IndexChange; 2] = [IndexChange::IndexAbsorb, IndexChange::IndexPut];

fn change_index(index: &mut Index, coming: &Merge, call: IndexChange) -> Option<bool> {
    Some(match call {
        IndexChange::IndexAbsorb => index.absorb(coming).is_ok(),
        IndexChange::IndexPut => {
            let changes = index.changes(coming).ok()?;
            index.put(changes).is_ok()
        }
    })
}

/// Whether an index has just this state, and shows just this list of the original.
fn stands(index: &Index, known: &Known, list: &[Memento]) -> bool {
    is_same(index.state(), &known.standing) && index.list(&known.original) == list
}

fn try_index_change(known: &Known, call: IndexChange) -> Option<Tried> {
    let mut index = Index::new(known.alloc);
    index.absorb(&merge(&known.standing)?).ok()?;
    let list = known.standing.shown(&known.original).ok()?;
    let coming = merge(&known.coming)?;
    if change_index(&mut index, &coming, call)? {
        return Some(Tried::Answered);
    }
    let is_as_before = stands(&index, known, &list);
    let is_repeated = change_index(&mut index, &coming, call)?;
    Some(Tried::of_change(Change {
        is_answered: false,
        is_as_before,
        is_repeated,
    }))
}

/// Makes each call, and names it.
pub(crate) fn perform(rt: &HostRuntime, alloc: Global) -> Result<()> {
    for call in ON_SETS {
        insist(rt, call, || try_set(alloc, call))?;
    }
    for call in SHARING_SETS {
        share(rt, call, || try_set(alloc, call))?;
    }
    let known = again(|| make_known(alloc))?;
    for call in ON_ENTRIES {
        insist(rt, call, || try_entry(&known, call))?;
    }
    for call in SHARING_ENTRIES {
        share(rt, call, || try_entry(&known, call))?;
    }
    perform_harvests(rt, &known)?;
    perform_states(rt, &known)
}

fn perform_harvests(rt: &HostRuntime, known: &Known) -> Result<()> {
    for call in [Harvesting::HarvestNew, Harvesting::HarvestNewPart] {
        insist(rt, call, || try_harvest(known, call))?;
    }
    for call in [Harvesting::HarvestTryClone, Harvesting::StateShareHarvest] {
        share(rt, call, || try_harvest(known, call))?;
    }
    Ok(())
}

fn perform_states(rt: &HostRuntime, known: &Known) -> Result<()> {
    for call in ON_STATES {
        insist(rt, call, || try_state(known, call))?;
    }
    for call in STATE_CHANGES {
        insist(rt, call, || try_state_change(known, call))?;
    }
    for call in INDEX_CHANGES {
        insist(rt, call, || try_index_change(known, call))?;
    }
    Ok(())
}
