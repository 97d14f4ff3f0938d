//! Tests of `retention`: which originals are the oldest.
use crate::makers::{harvest, part_harvest};
use anyhow::Result;
use harvest_lattice::State;
use original_sets::{Key, OriginalSet};
use retention::{Amount, Remainder, Unlisted, Withdrawn, without_oldest};
use std::alloc::Global;
use std::hash::RandomState;
use std::test::*;
use text_tests::makers::{mementos, original};

const A: &[u8] = b"http://a.example/";

const B: &[u8] = b"http://b.example/";

/// An archive had nothing of an original in this second.
fn visit(
    alloc: Global,
    state: &mut State,
    archive: &[u8],
    address: &[u8],
    second: u64,
) -> Result<()> {
    state.merge(&harvest(alloc, archive, address, second, Vec::new(alloc))?)?;
    Ok(())
}

/// One archive had A at 100 and at 300, and B at 200. Another archive had A at 50.
fn learn(alloc: Global, state: &mut State) -> Result<()> {
    let mementos = mementos(alloc, &[(5, b"http://m.example/1")])?;
    state.merge(&harvest(alloc, b"a1", A, 100, mementos)?)?;
    state.merge(&part_harvest(alloc, b"a1", A, 300, Vec::new(alloc))?)?;
    visit(alloc, state, b"a1", B, 200)?;
    visit(alloc, state, b"b1", A, 50)
}

fn known(alloc: Global) -> Result<State> {
    let mut state = State::new(alloc);
    learn(alloc, &mut state)?;
    Ok(state)
}

/// What stays of a state where so many entries may be known. Nothing is listed, and nothing withdrawn.
fn remainder(alloc: Global, state: &State, entries: u64, keys: RandomState) -> Result<Remainder> {
    let withdrawn = Withdrawn::nothing(alloc, keys)?;
    let listed = OriginalSet::with_room(alloc, 0, keys)?;
    let unlisted = Unlisted {
        withdrawn: &withdrawn,
        listed: &listed,
    };
    let most = Amount {
        entries,
        mementos: 9,
    };
    Ok(without_oldest(alloc, state, &unlisted, 0, most, keys)?)
}

/// Whether an original is wanted that stays.
fn is_wanted(alloc: Global, rest: &Remainder, address: &[u8]) -> Result<bool> {
    let original = original(alloc, address)?;
    Ok(rest.wanted.has(&Key::new(&original)?))
}

/// Of A, which was looked at later than B, both entries stay.
#[test]
fn an_original_is_as_old_as_its_last_harvest_by_any_archive(rt: HostRuntime) -> Result<()> {
    let alloc = rt.alloc();
    let rest = remainder(alloc, &known(alloc)?, 2, RandomState::new(&rt)?)?;
    assert!(rt; rest.state.len() == 2 && rest.floor == 201);
    assert!(rt; is_wanted(alloc, &rest, A)? && !is_wanted(alloc, &rest, B)?);
    Ok(())
}

/// All five were looked at in one second, so none is older than another: as many stay as there is room for.
#[test]
fn of_one_second_as_many_stay_as_there_is_room_for(rt: HostRuntime) -> Result<()> {
    let alloc = rt.alloc();
    let mut state = State::new(alloc);
    for address in [
        A,
        B,
        b"http://c.example/",
        b"http://d.example/",
        b"http://e.example/",
    ] {
        visit(alloc, &mut state, b"a1", address, 100)?;
    }
    for (room, floor) in [(3, 101), (5, 0)] {
        let rest = remainder(alloc, &state, room, RandomState::new(&rt)?)?;
        assert!(rt;
            rest.state.len() as u64 == room && rest.floor == floor,
            "{room}"
        );
    }
    Ok(())
}
