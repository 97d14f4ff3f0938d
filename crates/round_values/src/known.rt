//! How much is known, as the status shows it.
use crate::times::Second;
use harvest_lattice::{Entry, State};
use service_status::KnownStatus;

/// How many seconds a revision lies ahead of the clock at most that isn't told as ahead.
const TOLERATED: u64 = 60;

/// How many mementos an entry has, those of each revision.
fn mementos_in(entry: &Entry) -> u64 {
    let mut mementos = 0u64;
    for revision in 0..entry.revisions() {
        mementos = mementos.saturating_add(entry.mementos(revision).len() as u64);
    }
    mementos
}

/// Whether the greatest revision of an entry lies ahead of this second, and not by a little.
fn is_ahead(entry: &Entry, second: Second) -> bool {
    match entry.revisions().checked_sub(1) {
        Some(greatest) => Second(entry.revision(greatest)).since(second) > TOLERATED,
        None => false,
    }
}

/// How much a state has in this second. Takes time in the number of its entries.
pub fn known_in(state: &State, second: Second) -> KnownStatus {
    let mut mementos = 0u64;
    let mut ahead = 0u64;
    for (_, entry) in state.rows() {
        mementos = mementos.saturating_add(mementos_in(entry));
        if is_ahead(entry, second) {
            ahead = ahead.saturating_add(1);
        }
    }
    KnownStatus {
        entries: state.len() as u64,
        mementos,
        ahead,
    }
}
