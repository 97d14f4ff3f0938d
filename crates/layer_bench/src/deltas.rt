//! Writing what a replica learnt last, beside all that it has learnt.
use crate::memory::merges;
use crate::telling::tell;
use anyhow::Result;
use replica_exchange::{Cursor, Stamped, write_delta};
use std::alloc::Global;

const INCARNATION: u64 = 1;

/// A replica that has taken `count` mementos, ten of each original, in merges of one archive's harvest each.
fn filled(alloc: Global, count: u32) -> Result<Stamped> {
    let mut stamped = Stamped::new(alloc, INCARNATION);
    for number in 0..count / 10 {
        for merge in &merges(alloc, number)? {
            stamped.absorb(merge)?;
        }
    }
    Ok(stamped)
}

/// Fills a replica, and writes nothing. The number of its last merge.
pub(crate) fn fill(alloc: Global, count: u32) -> Result<usize> {
    Ok(filled(alloc, count)?.number() as usize)
}

/// Fills a replica, and writes 10,000 times the delta with its last merge, or ten times the one with all that it has.
/// Prints each time how long the delta is.
pub(crate) fn write<R: Print + AllocGlobal>(rt: &R, count: u32, is_last: bool) -> Result<()> {
    let stamped = filled(rt.alloc(), count)?;
    let mut cursor = None;
    let mut times = 10;
    if is_last {
        cursor = Some(Cursor {
            incarnation: INCARNATION,
            number: stamped.number().saturating_sub(1),
        });
        times = 10_000;
    }
    for _ in 0..times {
        tell(rt, &[write_delta(rt.alloc(), &stamped, cursor)?.len()])?;
    }
    Ok(())
}
