//! What a run has.
use crate::lines::Line;
use anyhow::{Context, Result, bail};
use harvest_schedule::{Limits, Pace, Schedule};
use std::alloc::{AllocGlobal, Global};
use std::hash::RandomState;
use std::num::NonZeroUsize;
use std::random::RandomSource;
use wish_list::{WishJobs, WishLimits, Wishes};

/// A run of its own.
#[derive(Drop)]
pub(crate) struct Run {
    pub plan: Schedule,
    pub book: Wishes,
    pub desk: WishJobs,
    /// The keys of its sets' hashes.
    pub keys: RandomState,
}

/// `new ONE_MORE PAUSE ORIGINALS REMEMBERED AGAIN IN_A_MINUTE (AT_ONCE EVERY)..`: the tolerance is one less than
/// `ONE_MORE`, and there is none if that is 0. Each archive has a pace.
fn plan_of(alloc: Global, line: &Line) -> Result<Schedule> {
    let limits = Limits {
        tolerance: line.number(2)?.checked_sub(1),
        pause: line.number(3)?,
    };
    let mut paces = Vec::new(alloc);
    for archive in 0..line.len().saturating_sub(8) / 2 {
        let place = archive.saturating_mul(2).saturating_add(8);
        paces.push(Pace {
            at_once: line.place(place)?,
            every: line.number(place.saturating_add(1))?,
        })?;
    }
    Ok(Schedule::new(alloc, limits, &paces, line.place(4)?)?)
}

fn book_of(alloc: Global, keys: RandomState, line: &Line) -> Result<Wishes> {
    let limits = WishLimits {
        remembered: NonZeroUsize::new(line.place(5)?).context("no room")?,
        again: line.number(6)?,
        in_a_minute: line.number(7)?,
    };
    Ok(Wishes::new(alloc, limits, keys)?)
}

/// Begins the run of this place: one more, or one in place of another.
pub(crate) fn begin<R>(rt: &R, runs: &mut Vec<Run>, place: usize, line: &Line) -> Result<()>
where
    R: RandomSource + AllocGlobal,
{
    let alloc = rt.alloc();
    let keys = RandomState::new(rt)?;
    let run = Run {
        plan: plan_of(alloc, line)?,
        book: book_of(alloc, keys, line)?,
        desk: WishJobs::new(alloc),
        keys,
    };
    if place < runs.len() {
        runs[place] = run;
    } else if place == runs.len() {
        runs.push(run)?;
    } else {
        bail!("runs begin in order");
    }
    Ok(())
}
