//! A status that the thread of the rounds tells what happens, and that the status' gate shows.
ghost use Rattle.std.specs.Prelude.{◌≡◌, IfOk, IsSome, None, is_some};

use crate::counts::{EntryCounts, PullEnd, WalkEnd, WishCounts};
use crate::status::{KnownStatus, ListStatus, RoomStatus, RoundStatus, Status};
use memento_time::NoMemory;
use std::alloc::Global;
use std::sync::{Arc, Mutex, Wait};

/// A status behind a lock, or none, which nothing is told of.
#[derive(Drop)]
pub struct StatusBoard {
    pub(crate) shared: Option<Arc<Mutex<Status>>>,
}

impl StatusBoard {
    /// A board without a status. Takes no memory.
    pub fn closed() -> StatusBoard
        ensures { result.shared ≡ None }
    {
        StatusBoard { shared: None }
    }

    /// A board with this status.
    pub fn open(alloc: Global, status: Status) -> Result<StatusBoard, NoMemory>
        ensures { IfOk result (λ it. IsSome it.shared) }
    {
        let shared = Arc::new(alloc, Mutex::new(status))?;
        Ok(StatusBoard {
            shared: Some(shared),
        })
    }

    /// Another owner of the same status.
    pub fn share(&self) -> Result<StatusBoard, NoMemory>
        ensures { IfOk result (λ other. is_some other.shared ≡ is_some self.now.shared) }
    {
        let shared = match &self.shared {
            Some(shared) => Some(Arc::try_clone(shared)?),
            None => None,
        };
        Ok(StatusBoard { shared })
    }

    /// Whether there is a status.
    pub fn is_open(&self) -> bool
        ensures { result ≡ is_some self.now.shared }
    {
        self.shared.is_some()
    }

    /// Counts a walk of the archive at this place, which took so many seconds.
    pub fn add_walk<R: Wait>(&self, rt: &R, place: usize, end: WalkEnd, seconds: u64) {
        if let Some(shared) = &self.shared {
            let mut status = shared.lock(rt);
            if let Some(archive) = status.archives.get_mut(place) {
                archive.add_walk(end, seconds);
            }
        }
    }

    /// Notes until which second the archive at this place is dormant; 0 if it isn't.
    pub fn set_dormant<R: Wait>(&self, rt: &R, place: usize, until: u64) {
        if let Some(shared) = &self.shared {
            let mut status = shared.lock(rt);
            if let Some(archive) = status.archives.get_mut(place) {
                archive.dormant_until = until;
            }
        }
    }

    /// Notes until which second the archive at this place is left alone, since it asked for that; 0 if it isn't.
    pub fn set_aside<R: Wait>(&self, rt: &R, place: usize, until: u64) {
        if let Some(shared) = &self.shared {
            let mut status = shared.lock(rt);
            if let Some(archive) = status.archives.get_mut(place) {
                archive.aside_until = until;
            }
        }
    }

    /// Notes how far the round is.
    pub fn set_round<R: Wait>(&self, rt: &R, round: RoundStatus) {
        if let Some(shared) = &self.shared {
            shared.lock(rt).round = round;
        }
    }

    /// Counts a round that was made.
    pub fn add_round<R: Wait>(&self, rt: &R) {
        if let Some(shared) = &self.shared {
            let mut status = shared.lock(rt);
            status.rounds = status.rounds.saturating_add(1);
        }
    }

    /// Counts a publish in this second.
    pub fn add_publish<R: Wait>(&self, rt: &R, second: u64) {
        if let Some(shared) = &self.shared {
            shared.lock(rt).publishes.add(second);
        }
    }

    /// Counts a publish for which memory was refused.
    pub fn add_refused<R: Wait>(&self, rt: &R) {
        if let Some(shared) = &self.shared {
            shared.lock(rt).publishes.add_refused();
        }
    }

    /// Counts a snapshot that was written in this second, if snapshots are written.
    pub fn add_snapshot<R: Wait>(&self, rt: &R, second: u64) {
        if let Some(shared) = &self.shared {
            let mut status = shared.lock(rt);
            if let Some(snapshots) = &mut status.snapshots {
                snapshots.add(second);
            }
        }
    }

    /// Counts a snapshot that couldn't be written, if snapshots are written.
    pub fn add_unwritten<R: Wait>(&self, rt: &R) {
        if let Some(shared) = &self.shared {
            let mut status = shared.lock(rt);
            if let Some(snapshots) = &mut status.snapshots {
                snapshots.add_failed();
            }
        }
    }

    /// Notes whether something is published that the last snapshot lacks, if snapshots are written.
    pub fn set_behind<R: Wait>(&self, rt: &R, is_behind: bool) {
        if let Some(shared) = &self.shared {
            let mut status = shared.lock(rt);
            if let Some(snapshots) = &mut status.snapshots {
                snapshots.is_behind = is_behind;
            }
        }
    }

    /// Notes that something is published.
    pub fn set_shown<R: Wait>(&self, rt: &R) {
        if let Some(shared) = &self.shared {
            shared.lock(rt).is_shown = true;
        }
    }

    /// Notes how much is known.
    pub fn set_known<R: Wait>(&self, rt: &R, known: KnownStatus) {
        if let Some(shared) = &self.shared {
            shared.lock(rt).known = known;
        }
    }

    /// Notes how many bytes of memory the process holds, if they are known.
    pub fn set_resident<R: Wait>(&self, rt: &R, resident: Option<u64>) {
        if let Some(shared) = &self.shared {
            shared.lock(rt).resident = resident;
        }
    }

    /// Counts a pull from the peer with this number, counted from 1, which ended in this second.
    pub fn add_pull<R: Wait>(&self, rt: &R, number: u64, end: PullEnd, second: u64) {
        if let Some(shared) = &self.shared {
            let mut status = shared.lock(rt);
            for (of, peer) in (1..).zip(&mut status.peers) {
                if of == number {
                    peer.add_pull(end, second);
                }
            }
        }
    }

    /// Counts so many wishes more, if wishes are taken.
    pub fn add_wishes<R: Wait>(&self, rt: &R, more: WishCounts) {
        if let Some(shared) = &self.shared {
            let mut status = shared.lock(rt);
            if let Some(wishes) = &mut status.wishes {
                wishes.add(more);
            }
        }
    }

    /// Notes how many originals are known by wishes, and how many may be.
    pub fn set_room<R: Wait>(&self, rt: &R, room: RoomStatus) {
        if let Some(shared) = &self.shared {
            shared.lock(rt).room = Some(room);
        }
    }

    /// Counts so many entries more of the deltas of the peer with this number, counted from 1.
    pub fn add_entries<R: Wait>(&self, rt: &R, number: u64, more: EntryCounts) {
        if let Some(shared) = &self.shared {
            let mut status = shared.lock(rt);
            for (of, peer) in (1..).zip(&mut status.peers) {
                if of == number {
                    peer.add_entries(more);
                }
            }
        }
    }

    /// Counts a part of the delta of the peer with this number, counted from 1, that was taken in this second.
    pub fn add_part<R: Wait>(&self, rt: &R, number: u64, second: u64) {
        if let Some(shared) = &self.shared {
            let mut status = shared.lock(rt);
            for (of, peer) in (1..).zip(&mut status.peers) {
                if of == number {
                    peer.add_part(second);
                }
            }
        }
    }

    /// Counts a forgetting of so many entries, after which this is the floor, if something is forgotten at all.
    pub fn add_forgetting<R: Wait>(&self, rt: &R, entries: u64, floor: u64) {
        if let Some(shared) = &self.shared {
            let mut status = shared.lock(rt);
            if let Some(forgetting) = &mut status.forgetting {
                forgetting.add(entries, floor);
            }
        }
    }

    /// Counts a forgetting for which memory was refused, if something is forgotten at all.
    pub fn add_unforgotten<R: Wait>(&self, rt: &R) {
        if let Some(shared) = &self.shared {
            let mut status = shared.lock(rt);
            if let Some(forgetting) = &mut status.forgetting {
                forgetting.add_unforgotten();
            }
        }
    }

    /// Notes how many mementos unlisted originals have, if something is forgotten at all.
    pub fn set_unlisted<R: Wait>(&self, rt: &R, mementos: u64) {
        if let Some(shared) = &self.shared {
            let mut status = shared.lock(rt);
            if let Some(forgetting) = &mut status.forgetting {
                forgetting.mementos = mementos;
            }
        }
    }

    /// Notes what the file of originals came to.
    pub fn set_list<R: Wait>(&self, rt: &R, list: ListStatus) {
        if let Some(shared) = &self.shared {
            shared.lock(rt).list = Some(list);
        }
    }
}
