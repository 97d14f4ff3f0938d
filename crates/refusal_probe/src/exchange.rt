//! Two replicas that take a memento each, tell each other, and are asked. A delta is taken where the cursor reaches,
//! and another is refused where none is held.
use crate::makers::{FIRST_DAY, THIRD_DAY, get, harvest, service};
use anyhow::Result;
use memento_time::Octets;
use replica_world::{Event, World};
use std::alloc::Global;
use timegate::Request;

/// A state of two entries, so that a refusal can fall between them.
const STATE: &[u8] = b"memento-state 1
entries 2
entry b1 1 1 http://a.example/
946771200 http://m.example/3
entry c1 1 0 http://a.example/
end
";

/// The first 40 bytes of it.
const CUT_STATE: &[u8] = b"memento-state 1
entries 2
entry b1 1 1 h";

/// A world, what happens in it, and what its replicas are asked meanwhile.
#[derive(Drop)]
pub(crate) struct Exchange {
    pub(crate) world: World,
    pub(crate) events: Vec<Event>,
    pub(crate) questions: Vec<Request>,
}

/// The exchange before its first event.
pub(crate) fn begin(alloc: Global) -> Result<Exchange> {
    Ok(Exchange {
        world: World::new(alloc, 2, service(alloc)?)?,
        events: events(alloc)?,
        questions: questions(alloc)?,
    })
}

/// An event before memory is asked for.
#[derive(Clone, Copy)]
enum Step {
    /// The replica takes a memento of this second and address at this revision.
    Take(usize, u64, u64, &'static [u8]),
    Send(usize),
    SendFrom(usize, u64),
    Deliver(usize, usize),
    Receive(usize, &'static [u8]),
    Restart(usize),
}

const MEMENTO_1: &[u8] = b"http://m.example/1";

const MEMENTO_2: &[u8] = b"http://m.example/2";

const STEPS: [Step; 16] = [
    Step::Take(1, 5, FIRST_DAY, MEMENTO_1),
    Step::Take(2, 5, THIRD_DAY, MEMENTO_2),
    Step::Send(1),
    Step::Send(2),
    Step::Deliver(2, 1),
    Step::Deliver(1, 2),
    Step::Receive(1, STATE),
    Step::Receive(2, CUT_STATE),
    Step::Restart(2),
    Step::Take(2, 6, THIRD_DAY, MEMENTO_2),
    Step::Send(2),
    Step::Deliver(1, 3),
    Step::SendFrom(2, 1),
    Step::Deliver(1, 4),
    Step::SendFrom(1, 2),
    Step::Deliver(2, 5),
];

fn event(alloc: Global, step: Step) -> Result<Event> {
    Ok(match step {
        Step::Take(replica, revision, second, uri) => {
            Event::Take(replica, harvest(alloc, revision, second, uri)?)
        }
        Step::Send(replica) => Event::Send(replica),
        Step::SendFrom(replica, number) => Event::SendFrom(replica, number),
        Step::Deliver(replica, message) => Event::Deliver(replica, message),
        Step::Receive(replica, bytes) => Event::Receive(replica, Octets::from_slice(alloc, bytes)?),
        Step::Restart(replica) => Event::Restart(replica),
    })
}

fn events(alloc: Global) -> Result<Vec<Event>> {
    let mut events = Vec::new(alloc);
    for step in STEPS {
        events.push(event(alloc, step)?)?;
    }
    Ok(events)
}

const TARGETS: [&[u8]; 4] = [
    b"/timemap/link/http://a.example/",
    b"/timegate/http://a.example/",
    b"/state",
    b"/delta",
];

fn questions(alloc: Global) -> Result<Vec<Request>> {
    let mut questions = Vec::new(alloc);
    for target in TARGETS {
        questions.push(get(alloc, target)?)?;
    }
    Ok(questions)
}
