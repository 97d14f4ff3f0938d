//! Replies, compared and printed.
use anyhow::Result;
use std::io::Write;
use timegate::Reply;

pub(crate) fn is_same(reply: &Reply, other: &Reply) -> bool {
    reply.status == other.status
        && reply.headers.as_slice() == other.headers.as_slice()
        && reply.body.as_slice() == other.body.as_slice()
}

pub(crate) fn print(rt: &HostRuntime, reply: &Reply) -> Result<()> {
    println!(rt; "reply {}", reply.status)?;
    rt.stdout().write_all(reply.body.as_slice())?;
    Ok(())
}
