//! The rule of what is listed, in its plainest form, over harvests that are told by numbers: the tests of walks compare
//! an index with it.
use crate::captures::{FIRST, ROOT, SECOND, THIRD};
use crate::makers::{harvest, part_harvest};
use anyhow::Result;
use harvest_lattice::Harvest;
use memento_time::Memento;
use std::alloc::Global;
use text_tests::makers::memento;

const ARCHIVES: [&[u8]; 3] = [b"a1", b"b1", b"c1"];

pub(crate) const ORIGINALS: [&[u8]; 2] = [ROOT, b"http://b.example/"];

/// What one of three archives had of one of two originals: some of four mementos, each a bit.
#[derive(Clone, Copy)]
pub(crate) struct Taken {
    pub(crate) archive: u64,
    pub(crate) original: u64,
    pub(crate) is_whole: bool,
    pub(crate) revision: u64,
    pub(crate) mementos: u64,
}

/// The mementos of these bits, in the order of the bits, which is that of their datetimes and addresses.
pub(crate) fn mementos_of(alloc: Global, bits: u64) -> Result<Vec<Memento>> {
    let mut list = Vec::new(alloc);
    for (bit, (second, uri)) in [
        (1, FIRST),
        (2, SECOND),
        (4, THIRD),
        (8, (946_900_000, FIRST.1)),
    ] {
        if bits & bit != 0 {
            list.push(memento(alloc, second, uri)?)?;
        }
    }
    Ok(list)
}

pub(crate) fn harvest_of(alloc: Global, taken: Taken) -> Result<Harvest> {
    let archive = ARCHIVES[(taken.archive % 3) as usize];
    let original = ORIGINALS[(taken.original % 2) as usize];
    let mementos = mementos_of(alloc, taken.mementos)?;
    if taken.is_whole {
        harvest(alloc, archive, original, taken.revision, mementos)
    } else {
        part_harvest(alloc, archive, original, taken.revision, mementos)
    }
}

/// Whether the one harvest is whole and of a greater revision of what the other is of.
fn replaces(one: Taken, other: Taken) -> bool {
    one.is_whole
        && one.revision > other.revision
        && one.archive == other.archive
        && one.original == other.original
}

/// What is listed of an original: what each harvest of it had that no later whole one replaces.
pub(crate) fn listed(all: &[Taken], original: u64) -> u64 {
    let mut mementos = 0;
    for taken in all {
        if taken.original == original && !all.iter().any(|other| replaces(*other, *taken)) {
            mementos |= taken.mementos;
        }
    }
    mementos
}
