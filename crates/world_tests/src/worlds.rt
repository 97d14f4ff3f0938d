//! Tests of worlds: two replicas that told each other, a restart, and the words of refusals. What replicas say after
//! other events stands in `examples/` and `tests/scripts/`, at the repository's top.
use anyhow::{Context, Result};
use knowledge_tests::makers::{get, harvest};
use replica_exchange::Cursor;
use replica_world::{
    Asked, Event, EventAnswer, Question, Refused, Said, World, asked_after, replicas_agree,
};
use std::alloc::Global;
use std::test::*;
use text_tests::makers::{FIRST_DAY, THIRD_DAY, mementos, service};
use timegate::Reply;

const ROOT: &[u8] = b"http://a.example/";

const MAP: &[u8] = b"/timemap/link/http://a.example/";

const FIRST: (u64, &[u8]) = (FIRST_DAY, b"http://m.example/1");

const SECOND: (u64, &[u8]) = (THIRD_DAY, b"http://m.example/2");

/// How the TimeMap of both ends. The whole of it stands in `examples/two.expected`.
const END: &[u8] =
    b"<http://m.example/2>; rel=\"last memento\"; datetime=\"Mon, 03 Jan 2000 00:00:00 GMT\"\n";

fn two_replicas(alloc: Global) -> Result<World> {
    Ok(World::new(alloc, 2, service(alloc)?)?)
}

fn one_replica(alloc: Global) -> Result<World> {
    Ok(World::new(alloc, 1, service(alloc)?)?)
}

/// A replica takes a whole harvest of the root by one archive.
fn take(alloc: Global, replica: usize, revision: u64, captures: &[(u64, &[u8])]) -> Result<Event> {
    let mementos = mementos(alloc, captures)?;
    Ok(Event::Take(replica, harvest(alloc, b"a1", ROOT, revision, mementos)?))
}

fn reply_of(answer: &EventAnswer) -> Option<&Reply> {
    match answer {
        Ok(Said::Replied(reply)) => Some(reply),
        _ => None,
    }
}

/// Two replicas each take one memento and send it.
fn sends(alloc: Global) -> Result<Vec<Event>> {
    let first = take(alloc, 1, 5, &[FIRST])?;
    let second = take(alloc, 2, 5, &[SECOND])?;
    Ok(vec![in alloc; first, second, Event::Send(1), Event::Send(2)]?)
}

fn push_deliveries(events: &mut Vec<Event>) -> Result<()> {
    events.push(Event::Deliver(2, 1))?;
    events.push(Event::Deliver(1, 2))?;
    Ok(())
}

/// Two replicas each take one memento, send it, and get what the other sent.
fn exchange(alloc: Global) -> Result<Vec<Event>> {
    let mut events = sends(alloc)?;
    push_deliveries(&mut events)?;
    Ok(events)
}

fn is_timemap_of_both(answer: &EventAnswer) -> bool {
    match reply_of(answer) {
        Some(reply) => {
            let body = reply.body.as_slice();
            reply.status == 200 && body.len() == 444 && body.ends_with(END)
        }
        None => false,
    }
}

fn answers_of(world: &mut World, events: &[Event]) -> Result<Vec<EventAnswer>> {
    Ok(world.run(events)?)
}

fn ask_both_after_the_exchange(alloc: Global) -> Result<Asked> {
    let events = exchange(alloc)?;
    let request = get(alloc, MAP)?;
    let question = Question {
        request: &request,
        first: 1,
        second: 2,
    };
    Ok(asked_after(alloc, 2, service(alloc)?, &events, &question)?)
}

#[test]
fn replicas_with_one_state(rt: HostRuntime) -> Result<()> {
    replicas_agree();
    let asked = ask_both_after_the_exchange(rt.alloc())?;
    assert_eq!(rt; asked.answers.len(), 6);
    assert!(rt; is_timemap_of_both(&asked.first) && is_timemap_of_both(&asked.second));
    Ok(())
}

/// Whether the replica shows no memento of the original.
fn shows_nothing(alloc: Global, world: &World, replica: usize) -> Result<bool> {
    let answer = world.ask(replica, &get(alloc, MAP)?);
    Ok(match reply_of(&answer) {
        Some(reply) => reply.status == 404 && reply.body.as_slice() == b"no memento\n".as_slice(),
        None => false,
    })
}

fn shows_both(alloc: Global, world: &World, replica: usize) -> Result<bool> {
    Ok(is_timemap_of_both(&world.ask(replica, &get(alloc, MAP)?)))
}

/// The length of the replica's TimeMap.
fn timemap_length(alloc: Global, world: &World, replica: usize) -> Result<usize> {
    let answer = world.ask(replica, &get(alloc, MAP)?);
    let reply = reply_of(&answer).context("no reply")?;
    Ok(reply.body.as_slice().len())
}

fn restarts(world: &mut World, replica: usize) -> bool {
    matches!(world.step(&Event::Restart(replica)), Ok(Said::Restarted))
}

/// Whether replica 1 shows nothing once it restarts, while the other still shows something.
fn forgets_by_a_restart(alloc: Global, world: &mut World) -> Result<bool> {
    Ok(restarts(world, 1) && shows_nothing(alloc, world, 1)? && !shows_nothing(alloc, world, 2)?)
}

/// Whether replica 1 gets back one memento by the other's message, and both by its own.
fn learns_again(alloc: Global, world: &mut World) -> Result<bool> {
    world.step(&Event::Deliver(1, 2))?;
    let one = timemap_length(alloc, world, 1)?;
    world.step(&Event::Deliver(1, 1))?;
    Ok(one == 365 && shows_both(alloc, world, 1)?)
}

#[test]
fn replicas_restart(rt: HostRuntime) -> Result<()> {
    let alloc = rt.alloc();
    let mut world = two_replicas(alloc)?;
    answers_of(&mut world, &exchange(alloc)?)?;
    assert!(rt; forgets_by_a_restart(alloc, &mut world)?);
    assert!(rt; learns_again(alloc, &mut world)?);
    Ok(())
}

/// As a script writes them behind `refused`.
#[test]
fn refusals_have_words(rt: HostRuntime) -> Result<()> {
    let held = Some(Cursor {
        incarnation: 1,
        number: 3,
    });
    for (refused, words) in [
        (Refused::NoReplica, "no replica"),
        (Refused::NoMessage, "no message"),
        (Refused::BadState, "bad state"),
        (Refused::NoMemory, "no memory"),
        (Refused::NumbersSpent, "numbers spent"),
        (Refused::Gap { held: None }, "gap none"),
        (Refused::Gap { held }, "gap 1 3"),
    ] {
        let text = format!(in rt.alloc(); "{refused}")?;
        assert_eq!(rt; text.as_str(), words);
    }
    Ok(())
}

#[test]
fn each_event_has_an_answer(rt: HostRuntime) -> Result<()> {
    let mut world = one_replica(rt.alloc())?;
    let answers = answers_of(&mut world, &[Event::Restart(2), Event::Restart(1)])?;
    assert_eq!(rt; answers.len(), 2);
    assert!(rt; matches!(answers.first(), Some(Err(Refused::NoReplica))));
    assert!(rt; matches!(answers.last(), Some(Ok(Said::Restarted))));
    Ok(())
}
