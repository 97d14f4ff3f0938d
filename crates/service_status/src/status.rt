//! What a service tells of itself.
ghost use Rattle.std.specs.Prelude.{◌≡◌};
ghost use Rattle.service_status.specs.Events.{after_walk, after_pull, after_publish, after_refusal, after_snapshot};
ghost use Rattle.service_status.specs.Events.{after_unwritten, after_forgetting, after_unforgotten, after_entries, after_part};

use crate::counts::{
    EntryCounts, PullCounts, PullEnd, ReplyCounts, WalkCounts, WalkEnd, WishCounts,
};
use memento_time::{ArchiveName, Clean};

/// How far a round is.
#[derive(Clone, Copy, Debug, PartialEq, Eq)]
pub struct RoundStatus {
    pub jobs: u64,
    /// Those that were passed over included.
    pub done: u64,
    /// Those that were passed over, since what is known is young enough.
    pub passed: u64,
}

/// What was published.
#[derive(Clone, Copy, Debug, PartialEq, Eq)]
pub struct PublishStatus {
    pub published: u64,
    /// Publishes for which memory was refused.
    pub refused: u64,
    /// The second of the last publish; 0 before.
    pub last: u64,
}

impl PublishStatus {
    /// Counts a publish in this second.
    pub fn add(&mut self, second: u64)
        ensures { self.new ≡ after_publish second self.old }
    {
        self.published = self.published.saturating_add(1);
        self.last = second;
    }

    /// Counts a publish for which memory was refused.
    pub fn add_refused(&mut self)
        ensures { self.new ≡ after_refusal self.old }
    {
        self.refused = self.refused.saturating_add(1);
    }
}

/// What became of snapshots.
#[derive(Clone, Copy, Debug, PartialEq, Eq)]
pub struct SnapshotStatus {
    pub written: u64,
    /// Snapshots that couldn't be written.
    pub failed: u64,
    /// The second in which a snapshot was written last; 0 before.
    pub last: u64,
    /// Whether something is published that the last snapshot lacks.
    pub is_behind: bool,
}

impl SnapshotStatus {
    /// No snapshot was tried.
    pub const NONE: SnapshotStatus = SnapshotStatus {
        written: 0,
        failed: 0,
        last: 0,
        is_behind: false,
    };

    /// Counts a snapshot that was written in this second. It has all that is published.
    pub fn add(&mut self, second: u64)
        ensures { self.new ≡ after_snapshot second self.old }
    {
        self.written = self.written.saturating_add(1);
        self.last = second;
        self.is_behind = false;
    }

    /// Counts a snapshot that couldn't be written.
    pub fn add_failed(&mut self)
        ensures { self.new ≡ after_unwritten self.old }
    {
        self.failed = self.failed.saturating_add(1);
        self.is_behind = true;
    }
}

/// How much is known.
#[derive(Clone, Copy, Debug, PartialEq, Eq)]
pub struct KnownStatus {
    /// Pairs of an archive and an original.
    pub entries: u64,
    pub mementos: u64,
    /// Entries that have a revision more than a minute ahead of the clock.
    pub ahead: u64,
}

/// How many originals that rounds don't look after are known by wishes, and how many may be.
#[derive(Clone, Copy, Debug, PartialEq, Eq)]
pub struct RoomStatus {
    pub used: u64,
    pub most: u64,
}

/// What was forgotten, and how much is known of originals that no round looks after.
#[derive(Clone, Copy, Debug, PartialEq, Eq)]
pub struct ForgettingStatus {
    /// How often something was forgotten.
    pub forgotten: u64,
    /// Forgettings for which memory was refused.
    pub unforgotten: u64,
    /// How many entries were forgotten.
    pub entries: u64,
    /// From which second on what a peer gives of unlisted originals is kept; 0 before something was forgotten by its
    /// age.
    pub floor: u64,
    /// The mementos of unlisted originals, when they were counted last.
    pub mementos: u64,
    /// How many of these there may be; `None` if any number.
    pub most: Option<u64>,
}

impl ForgettingStatus {
    /// Nothing was forgotten yet.
    pub fn begin(most: Option<u64>) -> ForgettingStatus
        ensures { result ≡ record {
          forgotten = 0;
          unforgotten = 0;
          entries = 0;
          floor = 0;
          mementos = 0;
          most = most;
        } }
    {
        ForgettingStatus {
            forgotten: 0,
            unforgotten: 0,
            entries: 0,
            floor: 0,
            mementos: 0,
            most,
        }
    }

    /// Counts a forgetting of so many entries, after which this is the floor.
    pub fn add(&mut self, entries: u64, floor: u64)
        ensures { self.new ≡ after_forgetting entries floor self.old }
    {
        self.forgotten = self.forgotten.saturating_add(1);
        self.entries = self.entries.saturating_add(entries);
        self.floor = floor;
    }

    /// Counts a forgetting for which memory was refused.
    pub fn add_unforgotten(&mut self)
        ensures { self.new ≡ after_unforgotten self.old }
    {
        self.unforgotten = self.unforgotten.saturating_add(1);
    }
}

/// What the file of originals came to.
#[derive(Clone, Copy, Debug, PartialEq, Eq)]
pub struct ListStatus {
    /// Lines that hold no original, when the file was read last.
    pub bad: u64,
    /// The second in which the file was read last; 0 before.
    pub last: u64,
}

impl ListStatus {
    /// The file wasn't read.
    pub const NONE: ListStatus = ListStatus { bad: 0, last: 0 };
}

/// What is told of an archive.
#[derive(Clone, Copy, Debug)]
pub struct ArchiveStatus {
    pub name: ArchiveName,
    pub walks: WalkCounts,
    /// How many seconds its walks took.
    pub seconds: u64,
    /// The second in which it is asked again; 0 unless it is dormant.
    pub dormant_until: u64,
    /// The second in which it is asked again; 0 unless it asked to be left alone.
    pub aside_until: u64,
}

impl ArchiveStatus {
    /// Counts a walk that ended so, and took so many seconds.
    pub fn add_walk(&mut self, end: WalkEnd, seconds: u64)
        ensures { self.new ≡ after_walk end seconds self.old }
    {
        self.walks.add(end);
        self.seconds = self.seconds.saturating_add(seconds);
    }
}

/// What is told of a peer.
#[derive(Debug, Drop)]
pub struct PeerStatus {
    /// Its number in the settings, counted from 1. Two peers can have one base.
    pub number: u64,
    pub base: Clean,
    pub pulls: PullCounts,
    /// The second in which it gave a delta, or a part of a delta, last; 0 before.
    pub last: u64,
    /// What became of the entries of its deltas; told only where something is forgotten.
    pub entries: EntryCounts,
    /// How many parts of its deltas were taken; told only where peers are asked for parts.
    pub parts: u64,
}

impl PeerStatus {
    /// Counts a pull that ended so in this second.
    pub fn add_pull(&mut self, end: PullEnd, second: u64)
        ensures { self.new ≡ after_pull end second self.old }
    {
        self.pulls.add(end);
        if matches!(end, PullEnd::News | PullEnd::NoNews) {
            self.last = second;
        }
    }

    /// Counts so many entries of its deltas more.
    pub fn add_entries(&mut self, more: EntryCounts)
        ensures { self.new ≡ after_entries more self.old }
    {
        self.entries.add(more);
    }

    /// Counts a part of its delta that was taken in this second.
    pub fn add_part(&mut self, second: u64)
        ensures { self.new ≡ after_part second self.old }
    {
        self.parts = self.parts.saturating_add(1);
        self.last = second;
    }
}

/// What is told of a gate.
#[derive(Clone, Copy, Debug, PartialEq, Eq)]
pub struct GateStatus {
    /// Its number in the settings, counted from 1.
    pub number: u64,
    pub replies: ReplyCounts,
}

/// What a service tells of itself. Seconds are those since 1970.
#[derive(Debug, Drop)]
pub struct Status {
    /// The second in which it is told.
    pub clock: u64,
    /// The version of the program.
    pub version: &'static str,
    /// Whether something is published.
    pub is_shown: bool,
    /// How many rounds were made.
    pub rounds: u64,
    pub round: RoundStatus,
    pub publishes: PublishStatus,
    /// `None` if no snapshots are written.
    pub snapshots: Option<SnapshotStatus>,
    pub known: KnownStatus,
    /// The bytes of memory that the process holds, if they are known.
    pub resident: Option<u64>,
    pub archives: Vec<ArchiveStatus>,
    pub peers: Vec<PeerStatus>,
    pub gates: Vec<GateStatus>,
    /// `None` if no wishes are taken.
    pub wishes: Option<WishCounts>,
    /// `None` until that is known, and if no wishes are taken.
    pub room: Option<RoomStatus>,
    /// `None` if the settings name no file of originals.
    pub list: Option<ListStatus>,
    /// `None` if nothing is forgotten and nothing withdrawn.
    pub forgetting: Option<ForgettingStatus>,
    /// Whether peers are asked for parts of their deltas.
    pub is_in_parts: bool,
}
