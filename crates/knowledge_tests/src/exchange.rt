//! Tests of `replica_exchange`: the texts of deltas, and what is too long. What replicas write, send and hold of each
//! other, and texts that are none, stand in `tests/scripts` and `tests/rounds`, at the repository's top.
use crate::rule::{ORIGINALS, Taken, harvest_of};
use anyhow::Result;
use harvest_lattice::State;
use memento_index::Merge;
use replica_exchange::{
    Cursor, Cursors, Stamped, StateFault, TakeFault, read_delta, read_state, write_delta,
    write_state,
};
use std::alloc::Global;
use std::test::*;
use text_tests::makers::original;

/// What follows on two merges.
const THIRD_MERGE: &[u8] =
    b"memento-delta 2\nfrom 1 2 3\nentries 1\nentry a1 3 1 http://a.example/\nat 3 0\nend\n";

/// The same in format 1.
const OLD_THIRD_MERGE: &[u8] =
    b"memento-delta 1\nfrom 1 2 3\nentries 1\nentry a1 3 0 http://a.example/\nend\n";

const TWO_MERGES: &[u8] = b"memento-delta 2\nfrom 1 0 2\nentries 0\nend\n";

/// What follows on one merge.
const SECOND_MERGE: &[u8] = b"memento-delta 2\nfrom 1 1 2\nentries 0\nend\n";

/// What follows on three merges.
const FOURTH_MERGE: &[u8] = b"memento-delta 2\nfrom 1 3 4\nentries 0\nend\n";

/// What follows on two merges of another incarnation.
const OF_ANOTHER_INCARNATION: &[u8] = b"memento-delta 2\nfrom 2 2 3\nentries 0\nend\n";

fn at(number: u64) -> Option<Cursor> {
    Some(Cursor {
        incarnation: 1,
        number,
    })
}

/// Whether a delta is taken from a peer, as is told before.
fn takes(alloc: Global, cursors: &mut Cursors, peer: u64, text: &[u8]) -> Result<bool> {
    let delta = read_delta(alloc, text)?;
    let fits = cursors.fits(peer, &delta);
    let held = cursors.held(peer);
    match cursors.take(peer, &delta) {
        Ok(()) => Ok(fits),
        Err(fault) => Ok(fits || fault != TakeFault::Gap { held }),
    }
}

#[test]
fn deltas_follow_on_cursors(rt: HostRuntime) -> Result<()> {
    let alloc = rt.alloc();
    let mut cursors = Cursors::new(alloc);
    for (text, is_taken) in [
        (THIRD_MERGE, false),
        (SECOND_MERGE, false),
        (TWO_MERGES, true),
        (FOURTH_MERGE, false),
        (OF_ANOTHER_INCARNATION, false),
    ] {
        assert!(rt; takes(alloc, &mut cursors, 7, text)? == is_taken);
    }
    assert!(rt; cursors.held(7) == at(2) && cursors.held(8).is_none());
    Ok(())
}

#[test]
fn a_copy_of_cursors_follows_alone(rt: HostRuntime) -> Result<()> {
    let alloc = rt.alloc();
    let mut cursors = Cursors::new(alloc);
    assert!(rt; takes(alloc, &mut cursors, 7, TWO_MERGES)?);
    let mut copy = cursors.try_clone()?;
    for text in [OLD_THIRD_MERGE, TWO_MERGES] {
        assert!(rt; takes(alloc, &mut copy, 7, text)?);
    }
    assert!(rt; copy.held(7) == at(3) && cursors.held(7) == at(2));
    Ok(())
}

/// What an archive had at a revision, and a part of what another had.
const STATE: &[u8] = b"memento-state 2
entries 2
entry a1 3 1 http://a.example/
at 3 1
946684800 http://m.example/1
entry b1 - 2 http://a.example/
at 4 0
at 7 1
946684800 http://m.example/1
end
";

#[test]
fn a_state_is_written_as_it_was_read(rt: HostRuntime) -> Result<()> {
    let alloc = rt.alloc();
    let state = read_state(alloc, STATE)?;
    assert!(rt; write_state(alloc, &state)?.as_slice() == STATE);
    Ok(())
}

fn is_no_state(alloc: Global, text: &[u8]) -> bool {
    matches!(read_state(alloc, text), Err(StateFault::NotState))
}

fn is_no_delta(alloc: Global, text: &[u8]) -> bool {
    matches!(read_delta(alloc, text), Err(StateFault::NotState))
}

#[test]
fn cut_texts_are_no_deltas(rt: HostRuntime) {
    let alloc = rt.alloc();
    for text in [THIRD_MERGE, OLD_THIRD_MERGE] {
        for end in 0..text.len() {
            assert!(rt; is_no_delta(alloc, &text[..end]), "cut at {end}");
        }
    }
}

/// Whether a text is refused for its length, as a state and as a delta.
fn is_too_long(alloc: Global, text: &[u8]) -> bool {
    matches!(read_state(alloc, text), Err(StateFault::TooLong))
        && matches!(read_delta(alloc, text), Err(StateFault::TooLong))
}

fn without_last(text: &[u8]) -> &[u8] {
    match text.split_last() {
        Some((_, before)) => before,
        None => text,
    }
}

/// A text of one byte more is refused as too long, and not as a text that is none.
#[test]
fn texts_have_at_most_268_435_456_bytes(rt: HostRuntime) -> Result<()> {
    let alloc = rt.alloc();
    let long = vec![in alloc; b'\n'; 268_435_457]?;
    assert!(rt; is_too_long(alloc, &long));
    let most = without_last(&long);
    assert!(rt; is_no_state(alloc, most) && is_no_delta(alloc, most));
    Ok(())
}

/// The harvests of many merges, each newer than those before it: of six keys, in no even turn.
fn one_of_many(number: u64) -> Taken {
    Taken {
        archive: number % 3,
        original: number / 5 % 2,
        is_whole: true,
        revision: number,
        mementos: number % 16,
    }
}

fn merge_of(alloc: Global, number: u64) -> Result<Merge> {
    Ok(Merge::Harvest(harvest_of(alloc, one_of_many(number))?))
}

/// What the merges from one on make alone.
fn state_of(alloc: Global, start: u64, end: u64) -> Result<State> {
    let mut state = State::new(alloc);
    for number in start..end {
        state.merge(&harvest_of(alloc, one_of_many(number))?)?;
    }
    Ok(state)
}

/// Whether the delta from a number of merges has what the later ones made, and nothing else.
fn has_what_followed(alloc: Global, stamped: &Stamped, start: u64) -> Result<bool> {
    let delta = read_delta(alloc, &write_delta(alloc, stamped, at(start))?)?;
    let wanted = state_of(alloc, start, stamped.number())?;
    Ok(delta.start == start && delta.state.le(&wanted) && wanted.le(&delta.state))
}

/// Whether that holds of each number of merges.
fn follows_on_all(alloc: Global, stamped: &Stamped) -> Result<bool> {
    for start in 0..stamped.number() {
        if !has_what_followed(alloc, stamped, start)? {
            return Ok(false);
        }
    }
    has_what_followed(alloc, stamped, stamped.number())
}

/// Whether the delta from a cursor begins with the first merge, and has what all of them made.
fn begins_anew(alloc: Global, stamped: &Stamped, cursor: Option<Cursor>) -> Result<bool> {
    let delta = read_delta(alloc, &write_delta(alloc, stamped, cursor)?)?;
    Ok(delta.start == 0 && stamped.index().state().le(&delta.state))
}

/// From no cursor, one beyond the last merge, and one of another incarnation.
#[test]
fn other_cursors_begin_anew(rt: HostRuntime) -> Result<()> {
    let alloc = rt.alloc();
    let mut stamped = Stamped::new(alloc, 1);
    for number in 1..3 {
        stamped.absorb(&merge_of(alloc, number)?)?;
    }
    let other = Cursor {
        incarnation: 2,
        number: 1,
    };
    for cursor in [None, at(3), Some(other)] {
        assert!(rt; begins_anew(alloc, &stamped, cursor)?);
    }
    Ok(())
}

/// Of six keys, the order of stamps is made anew after every seventeen merges.
#[test]
fn deltas_stay_whole_over_many_changes(rt: HostRuntime) -> Result<()> {
    let alloc = rt.alloc();
    let mut stamped = Stamped::new(alloc, 1);
    for number in 0..120 {
        stamped.absorb(&merge_of(alloc, number)?)?;
        if number % 10 == 3 || number > 110 {
            assert!(rt; follows_on_all(alloc, &stamped)?, "after {number}");
        }
    }
    Ok(())
}

/// Whether two copies list the same mementos of an original.
fn list_the_same(alloc: Global, left: &Stamped, right: &Stamped, name: &[u8]) -> Result<bool> {
    let name = original(alloc, name)?;
    Ok(left.index().list(&name) == right.index().list(&name))
}

#[test]
fn a_second_copy_takes_the_same_merges(rt: HostRuntime) -> Result<()> {
    let alloc = rt.alloc();
    let mut first = Stamped::new(alloc, 1);
    let mut second = Stamped::new(alloc, 1);
    for number in 0..40 {
        let merge = merge_of(alloc, number)?;
        first.absorb(&merge)?;
        second.absorb_beside(&merge, &first)?;
        for name in ORIGINALS {
            assert!(rt;
                list_the_same(alloc, &first, &second, name)?,
                "after {number}"
            );
        }
    }
    assert!(rt; second.number() == 40 && follows_on_all(alloc, &second)?);
    Ok(())
}
