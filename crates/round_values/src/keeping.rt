//! What is known is kept in a file: it is taken in before the gates answer, and written while rounds are made.
ghost use Rattle.std.specs.Prelude.{◌≡◌, ◌↔◌, ◌++◌, ◌-◌, ◌^◌, true, min, IfOk, IsTrue, OnErr, OnOk, map as map_list};
ghost use Rattle.std.specs.List.{sum_by};
ghost use Rattle.memento_index.specs.declared.merge.Merge.TheVariants.{State as StateMerge};
ghost use Rattle.published_index.specs.Cursors.{with_publish};
ghost use Rattle.published_index.specs.Events.{RunsAsEvents};
ghost use Rattle.round_values.specs.Ahead as spec;
ghost use Rattle.round_values.specs.Dues.{IsDue};
ghost use Rattle.round_values.specs.Keeping.{after_publish, with_states, Starts, TakesSome};

use crate::ahead::take_timely;
use crate::dues::Due;
use crate::logs::Log;
use crate::times::{Millis, Second};
use harvest_lattice::State;
use harvester::SocketRuntime;
use memento_index::Merge;
use memento_time::NoMemory;
use published_index::Merger;
use service_log::{Line, SnapshotEnd};
use service_settings::Storing;
use snapshots::{ReadFault, WriteFault, keep_snapshot, set_aside, take_snapshot};
use std::alloc::Global;
use std::io::Write;
use std::rt::Files;
use std::sync::Wait;

/// What a publish came to.
#[derive(Clone, Copy, Debug)]
pub struct PublishEnd {
    /// Whether something was appended before it.
    pub is_appended: bool,
    /// Whether what was appended is published.
    pub is_published: bool,
}

/// Whether a snapshot is to be written, and when.
#[derive(Clone, Copy, Debug)]
pub struct Keeping {
    due: Due,
    /// Whether something was appended that isn't published.
    is_pending: bool,
    /// Whether something is published that the snapshot hasn't.
    is_behind: bool,
    /// Whether the file at the snapshot's place couldn't be taken in, and not be set aside either.
    is_unread: bool,
}

impl Keeping {
    /// With these settings, where nothing is known yet.
    pub fn new(storing: &Storing, now: Millis) -> Keeping {
        let every = match storing.snapshot {
            Some(_) => Some(storing.every),
            None => None,
        };
        Keeping {
            due: Due::of_seconds(every, now),
            is_pending: false,
            is_behind: false,
            is_unread: false,
        }
    }

    /// Notes what a publish came to.
    pub fn note_publish(&mut self, end: PublishEnd)
        ensures { self.new ≡ after_publish self.old end.is_appended end.is_published }
    {
        self.is_pending = self.is_pending || end.is_appended;
        if end.is_published {
            self.is_behind = self.is_behind || self.is_pending;
            self.is_pending = false;
        }
    }

    /// Whether a snapshot is to be written now.
    pub fn is_due(self, now: Millis) -> bool
        ensures { IsTrue result ↔ (self.is_behind ≡ true) × IsDue self.due now.0 }
    {
        self.is_behind && self.due.is_due(now)
    }

    /// Whether something is published that the snapshot hasn't.
    pub fn is_behind(self) -> bool
        ensures { result ≡ self.is_behind }
    {
        self.is_behind
    }

    /// A snapshot was tried, which ended now.
    pub fn tried(&mut self, now: Millis)
        ensures { self.new ≡ record self.old { due = record self.old.due { last = now } } }
    {
        self.due.done(now);
    }

    /// Takes in what the snapshot at PATH has up to a second, and publishes it. Returns whether something is known by
    /// it. A snapshot that can't be taken in, or of which something isn't, is set aside, since the next one would take
    /// its place.
    pub fn take_in<R, L>(
        &mut self,
        rt: &R,
        path: &str,
        last: Second,
        merger: &mut Merger,
        log: Log<L>,
    ) -> bool
    where
        R: SocketRuntime + Files,
        L: Write + Copy,
        ensures { Starts last.0 merger.old merger.new }
    {
        match take_states(rt, path, last, merger) {
            Ok(Some(left_out)) => {
                log.tell(rt.alloc(), Line::Snapshot(SnapshotEnd::TakenIn));
                if left_out > 0 {
                    let end = self.leave_ahead(rt, path, left_out);
                    log.tell(rt.alloc(), Line::Snapshot(end));
                }
                !merger.published_state().is_empty()
            }
            Ok(None) => false,
            Err(fault) => {
                // The first few states may be pending.
                self.is_pending = fault == ReadFault::NoMemory;
                let end = self.leave(rt, path, fault);
                log.tell(rt.alloc(), Line::Snapshot(end));
                false
            }
        }
    }

    /// Sets the file at PATH aside, of which so many harvests weren't taken in. The next one hasn't them, so it is due.
    fn leave_ahead<R>(&mut self, rt: &R, path: &str, left_out: u64) -> SnapshotEnd
    where
        R: SocketRuntime + Files,
    {
        self.is_behind = true;
        if self.put_aside(rt, path) {
            SnapshotEnd::AheadAside(left_out)
        } else {
            SnapshotEnd::AheadUnread(left_out)
        }
    }

    /// Sets the file at PATH aside, which has this fault.
    fn leave<R>(&mut self, rt: &R, path: &str, fault: ReadFault) -> SnapshotEnd
    where
        R: SocketRuntime + Files,
    {
        if self.put_aside(rt, path) {
            SnapshotEnd::Aside(fault)
        } else {
            SnapshotEnd::Unread(fault)
        }
    }

    /// Sets the file at PATH aside, if that is possible. Returns whether it is.
    fn put_aside<R>(&mut self, rt: &R, path: &str) -> bool
    where
        R: SocketRuntime + Files,
    {
        self.is_unread = set_aside(rt, path).is_err();
        !self.is_unread
    }

    /// Writes what is published to the snapshot at PATH. Where that isn't possible, PATH stays as it is, and the log is
    /// told.
    pub fn keep<R, L>(&mut self, rt: &R, path: &str, merger: &Merger, log: Log<L>)
    where
        R: SocketRuntime + Files,
        L: Write + Copy,
    {
        match self.write(rt, path, merger) {
            Ok(()) => self.is_behind = false,
            Err(fault) => {
                log.tell(rt.alloc(), Line::Snapshot(SnapshotEnd::Unwritten(fault)));
            }
        }
    }

    /// Writes what is published to the snapshot at PATH, unless a file is there that has to be set aside and can't be.
    fn write<R>(&mut self, rt: &R, path: &str, merger: &Merger) -> Result<(), WriteFault>
    where
        R: SocketRuntime + Files,
    {
        if self.is_unread {
            if set_aside(rt, path).is_err() {
                return Err(WriteFault::NotWritten);
            }
            self.is_unread = false;
        }
        keep_snapshot(rt, merger.published_state(), path)
    }
}

/// Appends these states, in order.
fn append_states(merger: &mut Merger, states: Vec<State>) -> Result<(), NoMemory>
    ensures ok { OnOk result (merger.new ≡ with_states merger.old states.items) }
    ensures err { OnErr result (TakesSome merger.old states.items merger.new) }
{
    for state in states {
        merger.append(&Merge::State(state))?;
    }
    Ok(())
}

/// Appends the states of a snapshot, in order, and publishes them as one batch, behind what was pending. That batch is
/// the event Receive of each state's text. If memory is refused, nothing is published, and the first few states may be
/// pending.
fn publish_states<R: Wait>(rt: &R, merger: &mut Merger, states: Vec<State>) -> Result<(), NoMemory>
    ensures ok { OnOk result (merger.new ≡ with_publish (with_states merger.old states.items)) }
    ensures events { OnOk result (RunsAsEvents merger.old.published
        (merger.old.pending ++ map_list StateMerge states.items)) }
    ensures err { OnErr result (TakesSome merger.old states.items merger.new) }
{
    append_states(merger, states)?;
    let Ok(_) = merger.publish(rt) else {
        return Err(NoMemory);
    };
    merger.settle(rt);
    Ok(())
}

/// What is taken of each of these states, and how many harvests of all aren't, since they are ahead of a second.
fn timely_states(
    alloc: Global,
    states: Vec<State>,
    last: Second,
) -> Result<(Vec<State>, u64), NoMemory>
    ensures taken { IfOk result (λ timely. timely.0.items ≡ map_list (spec.taken last.0) states.items) }
    ensures left_out { IfOk result
        (λ timely. timely.1 ≡ min (sum_by (spec.left_out last.0) states.items) (2 ^ 64 - 1)) }
{
    let mut taken = Vec::with_capacity(alloc, states.len())?;
    let mut left_out = 0u64;
    for state in states {
        let some = take_timely(alloc, state, last)?;
        left_out = left_out.saturating_add(some.left_out);
        taken.push(some.state)?;
    }
    Ok((taken, left_out))
}

/// Takes in what the snapshot at PATH has up to a second, and publishes it. Returns how many harvests weren't taken in,
/// if there is one.
fn take_states<R>(
    rt: &R,
    path: &str,
    last: Second,
    merger: &mut Merger,
) -> Result<Option<u64>, ReadFault>
where
    R: SocketRuntime + Files,
    ensures { Starts last.0 merger.old merger.new }
{
    let Some(states) = take_snapshot(rt, path)? else {
        return Ok(None);
    };
    let Ok((taken, left_out)) = timely_states(rt.alloc(), states, last) else {
        return Err(ReadFault::NoMemory);
    };
    match publish_states(rt, merger, taken) {
        Ok(()) => Ok(Some(left_out)),
        Err(_) => Err(ReadFault::NoMemory),
    }
}
