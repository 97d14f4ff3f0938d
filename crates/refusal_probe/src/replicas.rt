//! Calls of a replica, of the texts that replicas exchange, and of a world of them.
use crate::lattice::STANDING;
use crate::makers::{FIRST_DAY, get, harvest, service};
use anyhow::Result;
use memento_index::Merge;
use refused_calls::{Change, Tried, again, insist};
use replica_exchange::{Cursors, Delta, Stamped, read_delta, read_state, write_delta, write_state};
use replica_world::{Event, Question, World, asked_after};
use std::alloc::Global;
use timegate::answer;
use timemap_writer::Service;

const URI: &[u8] = b"http://m.example/1";

const DELTA: &[u8] = b"memento-delta 2
from 1 0 1
entries 1
entry a1 1 1 http://a.example/
at 1 1
946684800 http://m.example/1
end
";

const TARGETS: [&[u8]; 4] = [
    b"/timegate/http://a.example/",
    b"/timemap/link/http://a.example/",
    b"/timemap/link/page/1/http://a.example/",
    b"/delta/1/0",
];

/// A replica, where it stands, a peer's delta, and what it knows of peers.
#[derive(Drop)]
struct Replica {
    alloc: Global,
    base: Service,
    merge: Merge,
    stamped: Stamped,
    delta: Delta,
    cursors: Cursors,
}

fn stamped(alloc: Global, merge: &Merge) -> Option<Stamped> {
    let mut stamped = Stamped::new(alloc, 1);
    stamped.absorb(merge).ok()?;
    Some(stamped)
}

fn make_replica(alloc: Global) -> Option<Replica> {
    let merge = Merge::Harvest(harvest(alloc, 1, FIRST_DAY, URI).ok()?);
    let delta = read_delta(alloc, DELTA).ok()?;
    let mut cursors = Cursors::new(alloc);
    cursors.take(1, &delta).ok()?;
    Some(Replica {
        alloc,
        base: service(alloc).ok()?,
        stamped: stamped(alloc, &merge)?,
        merge,
        delta,
        cursors,
    })
}

/// Calls that change nothing.
#[derive(Clone, Copy, Debug)]
enum Asking {
    WriteState,
    ReadState,
    WriteDelta,
    ReadDelta,
    CursorsTryClone,
    Answer,
}

const ASKINGS: [Asking; 6] = [
    Asking::WriteState,
    Asking::ReadState,
    Asking::WriteDelta,
    Asking::ReadDelta,
    Asking::CursorsTryClone,
    Asking::Answer,
];

/// Whether each target is answered.
fn answer_each(replica: &Replica) -> Option<bool> {
    for target in TARGETS {
        let question = get(replica.alloc, target).ok()?;
        if answer(replica.alloc, &replica.base, &replica.stamped, &question).is_err() {
            return Some(false);
        }
    }
    Some(true)
}

fn ask(replica: &Replica, call: Asking) -> Option<Tried> {
    let alloc = replica.alloc;
    let is_answered = match call {
        Asking::WriteState => write_state(alloc, replica.stamped.index().state()).is_ok(),
        Asking::ReadState => read_state(alloc, STANDING).is_ok(),
        Asking::WriteDelta => write_delta(alloc, &replica.stamped, None).is_ok(),
        Asking::ReadDelta => read_delta(alloc, DELTA).is_ok(),
        Asking::CursorsTryClone => replica.cursors.try_clone().is_ok(),
        Asking::Answer => answer_each(replica)?,
    };
    Some(Tried::of(is_answered))
}

/// Calls that change what they are made on.
#[derive(Clone, Copy, Debug)]
enum Changing {
    StampedAbsorb,
    StampedAbsorbBeside,
    CursorsTake,
    CursorsAdvance,
    WorldNew,
    WorldRun,
    AskedAfter,
}

/// Absorbs the merge, alone or beside the replica's own copy.
fn absorb_once(stamped: &mut Stamped, replica: &Replica, is_beside: bool) -> bool {
    if is_beside {
        stamped
            .absorb_beside(&replica.merge, &replica.stamped)
            .is_ok()
    } else {
        stamped.absorb(&replica.merge).is_ok()
    }
}

fn absorb(replica: &Replica, is_beside: bool) -> Option<Tried> {
    let mut stamped = Stamped::new(replica.alloc, 1);
    if absorb_once(&mut stamped, replica, is_beside) {
        return Some(Tried::Answered);
    }
    let is_as_before = stamped.number() == 0 && stamped.index().state().is_empty();
    let is_repeated = absorb_once(&mut stamped, replica, is_beside);
    Some(Tried::of_change(Change {
        is_answered: false,
        is_as_before,
        is_repeated,
    }))
}

fn take(replica: &Replica) -> Option<Tried> {
    let mut cursors = Cursors::new(replica.alloc);
    let is_answered = cursors.take(1, &replica.delta).is_ok();
    let is_as_before = cursors.held(1).is_none();
    let is_repeated = !is_answered && cursors.take(1, &replica.delta).is_ok();
    Some(Tried::of_change(Change {
        is_answered,
        is_as_before,
        is_repeated,
    }))
}

fn advance_once(cursors: &mut Cursors, delta: &Delta) -> bool {
    cursors.fits(1, delta) && cursors.advance(1, delta).is_ok()
}

fn advance(replica: &Replica) -> Option<Tried> {
    let mut cursors = Cursors::new(replica.alloc);
    let is_answered = advance_once(&mut cursors, &replica.delta);
    let is_as_before = cursors.held(1).is_none();
    let is_repeated = !is_answered && advance_once(&mut cursors, &replica.delta);
    Some(Tried::of_change(Change {
        is_answered,
        is_as_before,
        is_repeated,
    }))
}

fn new_world(replica: &Replica) -> Option<World> {
    World::new(replica.alloc, 1, replica.base.try_clone().ok()?).ok()
}

fn try_new_world(replica: &Replica) -> Option<Tried> {
    let base = replica.base.try_clone().ok()?;
    Some(Tried::of(World::new(replica.alloc, 1, base).is_ok()))
}

/// Whether no replica of a world sends what it never sent.
fn has_sent_nothing(world: &mut World) -> bool {
    world.step(&Event::Deliver(1, 1)).is_err()
}

/// A refused run has run none of its events: nothing was sent.
fn run(replica: &Replica) -> Option<Tried> {
    let mut world = new_world(replica)?;
    let events = [Event::Send(1)];
    if world.run(&events).is_ok() {
        return Some(Tried::Answered);
    }
    let is_as_before = has_sent_nothing(&mut world);
    let is_repeated = world.run(&events).is_ok();
    Some(Tried::of_change(Change {
        is_answered: false,
        is_as_before,
        is_repeated,
    }))
}

fn try_asked_after(replica: &Replica) -> Option<Tried> {
    let base = replica.base.try_clone().ok()?;
    let request = get(replica.alloc, b"/state").ok()?;
    let events = [Event::Send(1)];
    let question = Question {
        request: &request,
        first: 1,
        second: 1,
    };
    let asked = asked_after(replica.alloc, 1, base, &events, &question);
    Some(Tried::of(asked.is_ok()))
}

fn change(replica: &Replica, call: Changing) -> Option<Tried> {
    match call {
        Changing::StampedAbsorb => absorb(replica, false),
        Changing::StampedAbsorbBeside => absorb(replica, true),
        Changing::CursorsTake => take(replica),
        Changing::CursorsAdvance => advance(replica),
        Changing::WorldNew => try_new_world(replica),
        Changing::WorldRun => run(replica),
        Changing::AskedAfter => try_asked_after(replica),
    }
}

const CHANGES: [Changing; 7] = [
    Changing::StampedAbsorb,
    Changing::StampedAbsorbBeside,
    Changing::CursorsTake,
    Changing::CursorsAdvance,
    Changing::WorldNew,
    Changing::WorldRun,
    Changing::AskedAfter,
];

/// Makes each call, and names it.
pub(crate) fn perform(rt: &HostRuntime, alloc: Global) -> Result<()> {
    let replica = again(|| make_replica(alloc))?;
    for call in ASKINGS {
        insist(rt, call, || ask(&replica, call))?;
    }
    for call in CHANGES {
        insist(rt, call, || change(&replica, call))?;
    }
    Ok(())
}
