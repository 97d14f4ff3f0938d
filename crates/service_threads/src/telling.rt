//! What an operator is told: the status, and how many replies each gate gave.
ghost use Rattle.std.specs.Prelude.{◌≡◌};

use crate::slots::forgets;
use harvester::SocketRuntime;
use memento_time::{ArchiveName, Clean, NoMemory};
use published_index::Merger;
use round_values::{known_in, second_now};
use service_settings::Settings;
use service_status::{
    ForgettingStatus, ListStatus, ReplyCounter, SnapshotStatus, Status, StatusBoard, StatusGate,
    WishCounts,
};
use std::alloc::Global;

/// The version of the program, as CHANGELOG.md names it.
const VERSION: &str = "0.4.0";

/// The names of the archives of these settings.
fn names_of(alloc: Global, settings: &Settings) -> Result<Vec<ArchiveName>, NoMemory> {
    let mut names = Vec::with_capacity(alloc, settings.archives.len())?;
    for archive in &settings.archives {
        names.push(archive.name)?;
    }
    Ok(names)
}

/// The bases of the peers of these settings.
fn bases_of(alloc: Global, settings: &Settings) -> Result<Vec<Clean>, NoMemory> {
    let mut bases = Vec::with_capacity(alloc, settings.peers.len())?;
    for peer in &settings.peers {
        bases.push(peer.try_clone()?)?;
    }
    Ok(bases)
}

/// The status of a service that begins by these settings.
fn status_of(alloc: Global, settings: &Settings) -> Result<Status, NoMemory> {
    let names = names_of(alloc, settings)?;
    let bases = bases_of(alloc, settings)?;
    let gates = settings.gates.len();
    let mut status = Status::begin(alloc, VERSION, &names, bases, gates)?;
    if settings.storing.snapshot.is_some() {
        status.snapshots = Some(SnapshotStatus::NONE);
    }
    if settings.wishing.wanted.is_some() {
        status.wishes = Some(WishCounts::NONE);
    }
    if settings.wishing.originals_file.is_some() {
        status.list = Some(ListStatus::NONE);
    }
    if forgets(settings) {
        status.forgetting = Some(ForgettingStatus::begin(settings.forgetting.most));
    }
    status.is_in_parts = settings.timing.parts.is_some();
    Ok(status)
}

/// The board of a service that begins, closed unless the settings ask for a status.
fn board_of(alloc: Global, settings: &Settings) -> Result<StatusBoard, NoMemory> {
    if settings.status.is_none() {
        return Ok(StatusBoard::closed());
    }
    StatusBoard::open(alloc, status_of(alloc, settings)?)
}

/// What an operator is told, and by what.
#[derive(Drop)]
pub struct Telling {
    board: StatusBoard,
    /// Of each gate in order.
    counters: Vec<ReplyCounter>,
}

impl Telling {
    /// Before anything has happened. Without a status in the settings, nothing is noted.
    pub(crate) fn new(alloc: Global, settings: &Settings) -> Result<Telling, NoMemory> {
        let mut counters = Vec::with_capacity(alloc, settings.gates.len())?;
        for _ in &settings.gates {
            let counter = match settings.status {
                Some(_) => ReplyCounter::open(alloc)?,
                None => ReplyCounter::closed(),
            };
            counters.push(counter)?;
        }
        Ok(Telling {
            board: board_of(alloc, settings)?,
            counters,
        })
    }

    /// What counts the replies of each gate, in order.
    pub(crate) fn counters(&self) -> &[ReplyCounter] {
        &self.counters
    }

    /// The gate that shows the status, if the settings ask for one.
    pub(crate) fn gate<R>(&self, rt: R, alloc: Global) -> Result<Option<StatusGate<R>>, NoMemory>
    where
        R: SocketRuntime + Drop,
    {
        let mut counters = Vec::with_capacity(alloc, self.counters.len())?;
        for counter in &self.counters {
            counters.push(counter.share()?)?;
        }
        Ok(StatusGate::new(rt, self.board.share()?, counters))
    }

    /// What the status is noted on.
    pub fn board(&self) -> &StatusBoard
        ensures { result.now ≡ self.now.board }
    {
        &self.board
    }

    /// Notes that gates show something.
    pub fn tell_shown<R: SocketRuntime>(&self, rt: &R) {
        self.board.set_shown(rt);
    }

    /// Notes what a snapshot brought, which is published.
    pub fn tell_snapshot<R: SocketRuntime>(&self, rt: &R, merger: &Merger) {
        if self.board.is_open() {
            let second = second_now(rt);
            self.board.add_publish(rt, second.0);
            self.board
                .set_known(rt, known_in(merger.published_state(), second));
            self.board.set_shown(rt);
        }
    }

    /// Counts so many wishes more.
    pub fn tell_wishes<R: SocketRuntime>(&self, rt: &R, more: WishCounts) {
        self.board.add_wishes(rt, more);
    }
}
