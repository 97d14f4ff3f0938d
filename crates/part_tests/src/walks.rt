//! A receiver walks over the parts of a sender's delta.
use anyhow::Result;
use delta_parts::{Part, Place, Walk, fits_part, read_part, walk_after, walk_end, write_part};
use harvest_lattice::State;
use knowledge_tests::makers::merge;
use memento_time::{ArchiveName, Original};
use replica_exchange::{Cursor, Stamped, StateFault};
use std::alloc::Global;
use std::test::*;

/// What there is of each archive: five originals.
const ORIGINALS: [&[u8]; 5] = [
    b"http://a.example/",
    b"http://b.example/",
    b"http://c.example/",
    b"http://d.example/",
    b"http://e.example/",
];

/// Takes in a merge of each original, of an archive.
fn absorb_all(alloc: Global, stamped: &mut Stamped, archive: &[u8], revision: u64) -> Result<()> {
    for original in ORIGINALS {
        let merge = merge(
            alloc,
            archive,
            original,
            revision,
            &[(1, b"http://m.example/1")],
        )?;
        stamped.absorb(&merge)?;
    }
    Ok(())
}

/// What a sender knows: ten entries of two archives.
fn sender(alloc: Global) -> Result<Stamped> {
    let mut stamped = Stamped::new(alloc, 7);
    absorb_all(alloc, &mut stamped, b"b1", 3)?;
    absorb_all(alloc, &mut stamped, b"a1", 3)?;
    Ok(stamped)
}

fn place_of(walk: Option<&Walk>) -> Option<&Place> {
    match walk {
        Some(walk) => Some(&walk.place),
        None => None,
    }
}

/// The next part behind a walk, with room for so many bytes of lines.
fn next_part(alloc: Global, stamped: &Stamped, walk: Option<&Walk>, room: usize) -> Result<Part> {
    let text = write_part(alloc, stamped, None, place_of(walk), room)?;
    Ok(read_part(alloc, text.as_slice())?)
}

/// What a receiver has learnt.
#[derive(Drop)]
struct Learnt {
    state: State,
    walk: Option<Walk>,
    parts: u64,
    /// Whether each part fitted.
    fitted: bool,
    /// Of how many merges the walk told at its end.
    end: u64,
}

/// Takes a part, and tells whether others follow.
fn take(learnt: &mut Learnt, part: Part) -> Result<bool> {
    learnt.fitted = learnt.fitted && fits_part(None, learnt.walk.as_ref(), &part);
    learnt.parts = learnt.parts.saturating_add(1);
    learnt.state.join(&part.delta.state)?;
    let next = walk_after(learnt.walk.as_ref(), &part)?;
    learnt.end = walk_end(learnt.walk.as_ref(), part).end;
    learnt.walk = next;
    Ok(learnt.walk.is_some())
}

/// Walks over all parts, of which there are twenty at most.
fn walk(alloc: Global, stamped: &Stamped, room: usize) -> Result<Learnt> {
    let mut learnt = Learnt {
        state: State::new(alloc),
        walk: None,
        parts: 0,
        fitted: true,
        end: 0,
    };
    for _ in 0..20 {
        let part = next_part(alloc, stamped, learnt.walk.as_ref(), room)?;
        if !take(&mut learnt, part)? {
            break;
        }
    }
    Ok(learnt)
}

fn has_all(learnt: &Learnt, stamped: &Stamped) -> bool {
    let all = stamped.index().state();
    learnt.fitted && learnt.state.le(all) && all.le(&learnt.state) && learnt.end == stamped.number()
}

/// With room for nothing each part has one entry, and with much room one part has all.
#[test]
fn a_walk_has_all(rt: HostRuntime) -> Result<()> {
    let alloc = rt.alloc();
    let stamped = sender(alloc)?;
    for (room, parts) in [(0, 10), (150, 5), (1_000_000, 1)] {
        let learnt = walk(alloc, &stamped, room)?;
        assert!(rt; has_all(&learnt, &stamped), "room {room}");
        assert!(rt;
            learnt.parts == parts,
            "{} parts with room {room}",
            learnt.parts
        );
    }
    Ok(())
}

/// How many entries stand behind this archive and original.
fn count_behind(state: &State, archive: ArchiveName, original: &Original) -> usize {
    let mut count = 0_usize;
    for _ in state.rows_behind(archive, original) {
        count = count.saturating_add(1);
    }
    count
}

#[test]
fn rows_behind_are_the_rest(rt: HostRuntime) -> Result<()> {
    let alloc = rt.alloc();
    let stamped = sender(alloc)?;
    let state = stamped.index().state();
    let mut left = state.len();
    for ((archive, original), _) in state.rows() {
        left = left.saturating_sub(1);
        assert!(rt; count_behind(state, archive, original) == left);
    }
    Ok(())
}

/// The walk behind the first of ten parts.
fn begun(alloc: Global, stamped: &Stamped) -> Result<Option<Walk>> {
    let part = next_part(alloc, stamped, None, 0)?;
    Ok(walk_after(None, &part)?)
}

/// What is changed of a part before it is looked at.
#[derive(Clone, Copy)]
enum Change {
    Nothing,
    Incarnation,
    Start,
    Behind,
}

fn apply(part: &mut Part, change: Change) {
    match change {
        Change::Nothing => {}
        Change::Incarnation => part.delta.incarnation = 8,
        Change::Start => part.delta.start = 1,
        Change::Behind => part.behind = part.until.take(),
    }
}

/// Whether the second part goes on with the walk behind the first, once it is changed.
fn fits_once(alloc: Global, change: Change) -> Result<bool> {
    let stamped = sender(alloc)?;
    let walk = begun(alloc, &stamped)?;
    let mut part = next_part(alloc, &stamped, walk.as_ref(), 0)?;
    apply(&mut part, change);
    let held = Some(Cursor {
        incarnation: 7,
        number: 0,
    });
    Ok(fits_part(held, walk.as_ref(), &part))
}

#[test]
fn other_parts_are_refused(rt: HostRuntime) -> Result<()> {
    let alloc = rt.alloc();
    assert!(rt; fits_once(alloc, Change::Nothing)?);
    assert!(rt; !fits_once(alloc, Change::Incarnation)?);
    assert!(rt; !fits_once(alloc, Change::Start)?);
    assert!(rt; !fits_once(alloc, Change::Behind)?);
    Ok(())
}

fn is_none(alloc: Global, text: &[u8]) -> bool {
    matches!(read_part(alloc, text), Err(StateFault::NotState))
}

const EMPTY: &[u8] =
    b"memento-part 1\nbehind -\nuntil a1 http://a.example/\nmemento-delta 2\nfrom 7 0 1\nentries 0\nend\n";

#[test]
fn other_texts_are_none(rt: HostRuntime) -> Result<()> {
    let alloc = rt.alloc();
    let part = read_part(alloc, EMPTY)?;
    assert!(rt; part.behind.is_none() && part.until.is_some() && part.delta.state.is_empty());
    for text in [
        b"".as_slice(),
        b"memento-part 2\nbehind -\nuntil -\nmemento-delta 2\nfrom 7 0 1\nentries 0\nend\n",
        b"memento-part 1\nuntil -\nbehind -\nmemento-delta 2\nfrom 7 0 1\nentries 0\nend\n",
        b"memento-part 1\nbehind -\nuntil a1\nmemento-delta 2\nfrom 7 0 1\nentries 0\nend\n",
        b"memento-part 1\nbehind -\nuntil A1 http://a.example/\nmemento-delta 2\nfrom 7 0 1\nentries 0\nend\n",
        b"memento-part 1\nbehind -\nuntil a1 a b\nmemento-delta 2\nfrom 7 0 1\nentries 0\nend\n",
        b"memento-part 1\nbehind -\nuntil -\nmemento-delta 2\nfrom 7 0 1\nentries 0\n",
    ] {
        assert!(rt; is_none(alloc, text));
    }
    Ok(())
}
