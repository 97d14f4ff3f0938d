//! The replies of two replicas after a list of events.
ghost use Rattle.std.specs.Prelude.{◌≤◌, IfOk};
ghost use Rattle.replica_world.specs.Asked.{AgreeAfter};

use crate::world::World;
use memento_time::NoMemory;
use replica_events::{Event, EventAnswer};
use std::alloc::Global;
use timegate::Request;
use timemap_writer::Service;

/// The answers to events, and then the answers of two replicas to the same request.
#[derive(Debug, Drop)]
pub struct Asked {
    pub answers: Vec<EventAnswer>,
    pub first: EventAnswer,
    pub second: EventAnswer,
}

/// A request that two replicas are asked.
#[derive(Clone, Copy, Debug)]
pub struct Question<'a> {
    pub request: &'a Request,
    pub first: usize,
    pub second: usize,
}

/// Runs these events in a new world, and then asks two replicas the same. If both have learnt the same harvests and no
/// delta is asked for, their replies are the same. So it says of the code what `replicas_agree` says of worlds.
pub fn asked_after(
    alloc: Global,
    replicas: usize,
    service: Service,
    events: &[Event],
    question: &Question<'_>,
) -> Result<Asked, NoMemory>
    requires { (1 ≤ replicas) × (replicas ≤ 16) }
    ensures { IfOk result (AgreeAfter service replicas events.now question.now.request.now
        question.now.first question.now.second) }
{
    let mut world = World::new(alloc, replicas, service)?;
    let answers = world.run(events)?;
    Ok(Asked {
        answers,
        first: world.ask(question.first, question.request),
        second: world.ask(question.second, question.request),
    })
}
