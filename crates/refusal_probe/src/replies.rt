//! What every replica replies to every question.
use anyhow::{Result, bail};
use replica_world::{Refused, Said, World};
use std::alloc::Global;
use timegate::{Reply, Request};

fn is_same_reply(reply: &Reply, other: &Reply) -> bool {
    reply.status == other.status
        && reply.headers.as_slice() == other.headers.as_slice()
        && reply.body.as_slice() == other.body.as_slice()
}

/// Whether these are the same replies, one by one.
pub(crate) fn is_same(replies: &[Reply], others: &[Reply]) -> bool {
    replies.len() == others.len()
        && replies
            .iter()
            .zip(others)
            .all(|(reply, other)| is_same_reply(reply, other))
}

/// What one replica replies, at the second try where the first ran out of memory.
fn reply_of(world: &World, replica: usize, question: &Request) -> Result<Reply> {
    let answer = match world.ask(replica, question) {
        Err(Refused::NoMemory) => world.ask(replica, question),
        answer => answer,
    };
    match answer {
        Ok(Said::Replied(reply)) => Ok(reply),
        _ => bail!("no reply"),
    }
}

fn ask_all(alloc: Global, world: &World, questions: &[Request]) -> Result<Vec<Reply>> {
    let mut replies = Vec::new(alloc);
    for question in questions {
        replies.push(reply_of(world, 1, question)?)?;
        replies.push(reply_of(world, 2, question)?)?;
    }
    Ok(replies)
}

/// The replies to all questions, of the first replica and the second in turn.
pub(crate) fn replies_of_all(
    alloc: Global,
    world: &World,
    questions: &[Request],
) -> Result<Vec<Reply>> {
    ask_all(alloc, world, questions).or_else(|_| ask_all(alloc, world, questions))
}
