//! The lines of the log.
ghost use Rattle.std.specs.Prelude.{◌≡◌, Some};
ghost use Rattle.service_log.specs.Logs.{cause_words, end_words, line_words, matter_words, part_words, peer_words, want_words};
ghost use Rattle.service_log.specs.Logs.{dormancy_words, greeting_words, progress_words, reason_words, snapshot_words};
ghost use Rattle.service_log.specs.Logs.{left_words, list_words, respite_words, wish_words};

use crate::counts::Counts;
use crate::forgotten::{Forgotten, WithdrawnMatter};
use gate_server::EdgeFault;
use harvester::WalkFault;
use memento_time::ArchiveName;
use outgoing_requests::PullFault;
use published_index::PublishRefused;
use replica_exchange::TakeFault;
use snapshots::{ReadFault, WriteFault};
use std::fmt;

/// Why a peer brought nothing in a round.
#[derive(Clone, Copy, Debug, PartialEq, Eq)]
pub enum PeerFault {
    /// The peer's delta couldn't be pulled.
    Pull(PullFault),
    /// The peer's delta wasn't accepted.
    Take(TakeFault),
    /// A part of the peer's delta wasn't accepted.
    Part(PartFault),
}

/// Why a part of a peer's delta isn't accepted.
#[derive(Clone, Copy, Debug, PartialEq, Eq)]
pub enum PartFault {
    /// It neither goes on with the walk over the parts before it nor begins one from the cursor that is held.
    Apart,
    /// It ends no further on than the part before it.
    Still,
    /// The allocator refused a growth.
    NoMemory,
}

impl fmt::Display for PartFault {
    ghost output = { λ fault. Some (part_words fault) };

    fn fmt<W: fmt::Write>(&self, f: &mut fmt::Formatter<W>) -> fmt::Result {
        match self {
            PartFault::Apart => f.write_str("a part that doesn't go on"),
            PartFault::Still => f.write_str("a part that ends no further on"),
            PartFault::NoMemory => f.write_str("no memory"),
        }
    }
}

impl fmt::Display for PeerFault {
    ghost output = { λ fault. Some (peer_words fault) };

    fn fmt<W: fmt::Write>(&self, f: &mut fmt::Formatter<W>) -> fmt::Result {
        match self {
            PeerFault::Pull(fault) => write!(f, "{fault}"),
            PeerFault::Take(fault) => write!(f, "{fault}"),
            PeerFault::Part(fault) => write!(f, "{fault}"),
        }
    }
}

/// Why the first of the walks that failed did so, and where it began.
#[derive(Clone, Copy)]
pub enum Cause<'a> {
    Known { fault: WalkFault, url: &'a str },
    /// Memory was refused for the cause.
    Unknown,
}

impl<'a> fmt::Display for Cause<'a> {
    ghost output = { λ cause. Some (cause_words cause) };

    fn fmt<W: fmt::Write>(&self, f: &mut fmt::Formatter<W>) -> fmt::Result {
        match *self {
            Cause::Known { fault, url } => write!(f, ", the first: {fault} from {url}"),
            Cause::Unknown => f.write_str(""),
        }
    }
}

/// What the log says about an archive.
#[derive(Clone, Copy)]
pub enum Matter<'a> {
    /// Walks failed.
    Failed { counts: Counts, cause: Cause<'a> },
    /// This many harvests came in part.
    Parts(u64),
    /// This many walks failed for this reason.
    Reason { count: u64, reason: Reason },
    /// After so many failures in a row it isn't asked for so many seconds, and so many jobs are left.
    Dormant(Dormancy),
    /// It asked to be left alone for so many seconds, and so many jobs are left.
    Aside(Respite),
    /// It has answered again, and so many jobs are left.
    Awake(u64),
    /// This many jobs were left when the round ended, since the archive was dormant.
    Left(u64),
    /// This many originals had copies before, and have none now.
    Emptied(u64),
}

impl<'a> fmt::Display for Matter<'a> {
    ghost output = { λ matter. Some (matter_words matter) };

    fn fmt<W: fmt::Write>(&self, f: &mut fmt::Formatter<W>) -> fmt::Result {
        match *self {
            Matter::Failed { counts, cause } => write!(f, "{counts}{cause}"),
            Matter::Parts(parts) => write!(f, "{parts} harvests in part"),
            Matter::Reason { count, reason } => write!(f, "{count} failed: {reason}"),
            Matter::Dormant(dormancy) => write!(f, "{dormancy}"),
            Matter::Aside(respite) => write!(f, "busy, not asked for {respite}"),
            Matter::Awake(left) => write!(f, "answers again, jobs left: {left}"),
            Matter::Left(left) => write!(f, "{left} walks not begun: it isn't asked"),
            Matter::Emptied(count) => write!(f, "{count} originals lost all their copies"),
        }
    }
}

/// Why walks failed, without what tells one from another.
#[derive(Clone, Copy, Debug, PartialEq, Eq)]
pub enum Reason {
    NoAnswer,
    TooLong,
    Status,
    Encoded,
    NoPage,
    TooManyPages,
    TooManyMementos,
    NoMemory,
}

impl fmt::Display for Reason {
    ghost output = { λ reason. Some (reason_words reason) };

    fn fmt<W: fmt::Write>(&self, f: &mut fmt::Formatter<W>) -> fmt::Result {
        match self {
            Reason::NoAnswer => f.write_str("no answer"),
            Reason::TooLong => f.write_str("a body that is too long"),
            Reason::Status => f.write_str("another status than 200 and 404"),
            Reason::Encoded => f.write_str("a content coding"),
            Reason::NoPage => f.write_str("no page of a TimeMap"),
            Reason::TooManyPages => f.write_str("too many pages"),
            Reason::TooManyMementos => f.write_str("too many mementos"),
            Reason::NoMemory => f.write_str("no memory"),
        }
    }
}

/// After so many failures in a row an archive isn't asked for so many seconds, and so many jobs are left.
#[derive(Clone, Copy, Debug, PartialEq, Eq)]
pub struct Dormancy {
    pub failures: u64,
    pub seconds: u64,
    pub left: u64,
}

impl fmt::Display for Dormancy {
    ghost output = { λ dormancy. Some (dormancy_words dormancy) };

    fn fmt<W: fmt::Write>(&self, f: &mut fmt::Formatter<W>) -> fmt::Result {
        write!(
            f,
            "{} failures in a row, not asked for {} seconds, jobs left: {}",
            self.failures, self.seconds, self.left
        )
    }
}

/// So many jobs are left.
#[derive(Clone, Copy, Debug, PartialEq, Eq)]
pub struct JobsLeft(pub u64);

impl fmt::Display for JobsLeft {
    ghost output = { λ left. Some (left_words left) };

    fn fmt<W: fmt::Write>(&self, f: &mut fmt::Formatter<W>) -> fmt::Result {
        write!(f, ", jobs left: {}", self.0)
    }
}

/// For so many seconds an archive is left alone, and so many jobs are left.
#[derive(Clone, Copy, Debug, PartialEq, Eq)]
pub struct Respite {
    pub seconds: u64,
    pub left: JobsLeft,
}

impl fmt::Display for Respite {
    ghost output = { λ respite. Some (respite_words respite) };

    fn fmt<W: fmt::Write>(&self, f: &mut fmt::Formatter<W>) -> fmt::Result {
        write!(f, "{} seconds{}", self.seconds, self.left)
    }
}

/// How far a round is.
#[derive(Clone, Copy, Debug, PartialEq, Eq)]
pub struct Progress {
    /// How many jobs are done, those that were passed over included.
    pub done: u64,
    pub jobs: u64,
    /// How many walks failed.
    pub failed: u64,
    /// How many jobs were passed over, since what is known is young enough.
    pub passed: u64,
}

impl fmt::Display for Progress {
    ghost output = { λ progress. Some (progress_words progress) };

    fn fmt<W: fmt::Write>(&self, f: &mut fmt::Formatter<W>) -> fmt::Result {
        write!(
            f,
            "{} of {} jobs, {} failed, {} passed over",
            self.done, self.jobs, self.failed, self.passed
        )
    }
}

/// How many peers gave what they know before the first round.
#[derive(Clone, Copy, Debug, PartialEq, Eq)]
pub struct Greeting {
    pub gave: u64,
    pub peers: u64,
}

impl fmt::Display for Greeting {
    ghost output = { λ greeting. Some (greeting_words greeting) };

    fn fmt<W: fmt::Write>(&self, f: &mut fmt::Formatter<W>) -> fmt::Result {
        write!(
            f,
            "{} of {} peers gave what they know",
            self.gave, self.peers
        )
    }
}

/// What wasn't done, and why: for lack of memory or room, or by the clock.
#[derive(Clone, Copy, Debug, PartialEq, Eq)]
pub enum Want {
    /// Walks weren't begun.
    Walks,
    /// Harvests weren't appended.
    Harvests,
    /// There were as many wishes as may be.
    Room,
    /// Harvests weren't taken, since their revisions are too far ahead of the clock.
    Clock,
    /// Wishes' harvests weren't kept, since unlisted originals would have more mementos than they may.
    Mementos,
}

impl fmt::Display for Want {
    ghost output = { λ want. Some (want_words want) };

    fn fmt<W: fmt::Write>(&self, f: &mut fmt::Formatter<W>) -> fmt::Result {
        match self {
            Want::Walks => f.write_str("walks not begun: no memory"),
            Want::Harvests => f.write_str("harvests not kept: no memory"),
            Want::Room => f.write_str("wishes turned away: no room"),
            Want::Clock => f.write_str("harvests not taken: ahead of this clock"),
            Want::Mementos => f.write_str("wished harvests dropped: too many mementos"),
        }
    }
}

/// What the log says about the file of originals.
#[derive(Clone, Copy, Debug, PartialEq, Eq)]
pub enum ListMatter {
    /// The line with this number holds no original.
    Bad(u64),
    /// So many more don't.
    More(u64),
    /// It can't be read.
    Unread,
    /// The same, where no originals of before are known.
    Unreadable,
    /// There is no memory for it.
    NoMemory,
}

impl fmt::Display for ListMatter {
    ghost output = { λ matter. Some (list_words matter) };

    fn fmt<W: fmt::Write>(&self, f: &mut fmt::Formatter<W>) -> fmt::Result {
        match self {
            ListMatter::Bad(number) => write!(f, "line {number} is no original"),
            ListMatter::More(count) => write!(f, "{count} more lines are no originals"),
            ListMatter::Unread => f.write_str("not read: the originals of before stay"),
            ListMatter::Unreadable => f.write_str("not read"),
            ListMatter::NoMemory => f.write_str("no memory: the originals of before stay"),
        }
    }
}

/// How many wishes are over, of how many of these something is shown, and how many walks for wishes failed.
#[derive(Clone, Copy, Debug, PartialEq, Eq)]
pub struct WishCounts {
    pub found: u64,
    pub ended: u64,
    pub failed: u64,
}

impl WishCounts {
    /// No wish is over, and no walk failed.
    pub const NONE: WishCounts = WishCounts {
        found: 0,
        ended: 0,
        failed: 0,
    };
}

impl fmt::Display for WishCounts {
    ghost output = { λ counts. Some (wish_words counts) };

    fn fmt<W: fmt::Write>(&self, f: &mut fmt::Formatter<W>) -> fmt::Result {
        match self.failed {
            0 => write!(f, "{} of {} found", self.found, self.ended),
            failed => write!(
                f,
                "{} of {} found, {failed} walks failed",
                self.found, self.ended
            ),
        }
    }
}

/// How a gate ended.
#[derive(Clone, Copy, Debug, PartialEq, Eq)]
pub enum GateEnd {
    /// The gate has served its last connection.
    Served,
    /// The gate ended before that, or never began.
    Failed(EdgeFault),
}

impl fmt::Display for GateEnd {
    ghost output = { λ end. Some (end_words end) };

    fn fmt<W: fmt::Write>(&self, f: &mut fmt::Formatter<W>) -> fmt::Result {
        match self {
            GateEnd::Served => f.write_str("its last connection is served"),
            GateEnd::Failed(fault) => write!(f, "{fault}"),
        }
    }
}

/// What became of a snapshot.
#[derive(Clone, Copy, Debug, PartialEq, Eq)]
pub enum SnapshotEnd {
    /// It was taken in at the start.
    TakenIn,
    /// So many harvests of it weren't, since they are ahead of the clock, and the file was set aside.
    AheadAside(u64),
    /// The same, and the file couldn't be set aside.
    AheadUnread(u64),
    /// It couldn't be taken in, and was set aside.
    Aside(ReadFault),
    /// It couldn't be taken in, and not be set aside either.
    Unread(ReadFault),
    /// None was written.
    Unwritten(WriteFault),
}

impl fmt::Display for SnapshotEnd {
    ghost output = { λ end. Some (snapshot_words end) };

    fn fmt<W: fmt::Write>(&self, f: &mut fmt::Formatter<W>) -> fmt::Result {
        match *self {
            SnapshotEnd::TakenIn => f.write_str("taken in"),
            SnapshotEnd::AheadAside(count) => {
                write!(
                    f,
                    "{count} harvests not taken in: ahead of this clock, and set aside"
                )
            }
            SnapshotEnd::AheadUnread(count) => {
                write!(
                    f,
                    "{count} harvests not taken in: ahead of this clock, and not set aside"
                )
            }
            SnapshotEnd::Aside(fault) => write!(f, "{fault}, and set aside"),
            SnapshotEnd::Unread(fault) => write!(f, "{fault}, and not set aside"),
            SnapshotEnd::Unwritten(WriteFault::NotWritten) => f.write_str("not written"),
            SnapshotEnd::Unwritten(WriteFault::TooLong) => f.write_str("not written: too long"),
            SnapshotEnd::Unwritten(WriteFault::NoMemory) => f.write_str("not written: no memory"),
        }
    }
}

/// What went wrong, each as one line.
#[derive(Clone, Copy)]
pub enum Line<'a> {
    /// Something about this archive.
    Archive {
        round: u64,
        name: &'a str,
        matter: Matter<'a>,
    },
    /// This many times something wasn't done.
    Wanting {
        round: u64,
        count: u64,
        want: Want,
    },
    /// The peer with this base brought nothing.
    Peer {
        round: u64,
        base: &'a str,
        fault: PeerFault,
    },
    /// What was appended isn't published.
    Unpublished {
        round: u64,
        fault: PublishRefused,
    },
    /// A round goes on.
    Progress {
        round: u64,
        progress: Progress,
    },
    /// The first round begins.
    Start(Greeting),
    /// So many wishes are over, and so many walks for wishes failed.
    Wishes(WishCounts),
    /// Something about the file of originals.
    List {
        round: u64,
        matter: ListMatter,
    },
    /// A snapshot was read, or none was written.
    Snapshot(SnapshotEnd),
    /// Something was forgotten.
    Forgotten(Forgotten),
    /// Nothing was, since memory was refused.
    Unforgotten,
    /// Something about the file of what is withdrawn.
    Withdrawn(WithdrawnMatter),
    /// Standard output can't be written.
    Output,
    /// The gate with this number ended.
    Gate {
        number: u64,
        address: &'a str,
        end: GateEnd,
    },
    /// The status' address isn't answered any more.
    Status {
        address: &'a str,
        end: GateEnd,
    },
}

impl<'a> fmt::Display for Line<'a> {
    ghost output = { λ line. Some (line_words line) };

    fn fmt<W: fmt::Write>(&self, f: &mut fmt::Formatter<W>) -> fmt::Result {
        match *self {
            Line::Archive {
                round,
                name,
                matter,
            } => write!(f, "round {round}: archive {name}: {matter}"),
            Line::Wanting { round, count, want } => write!(f, "round {round}: {count} {want}"),
            Line::Peer { round, base, fault } => write!(f, "round {round}: peer {base}: {fault}"),
            Line::Unpublished { round, fault } => write!(f, "round {round}: {fault}"),
            Line::Progress { round, progress } => write!(f, "round {round}: {progress}"),
            Line::Start(greeting) => write!(f, "start: {greeting}"),
            Line::Wishes(counts) => write!(f, "wishes: {counts}"),
            Line::List { round, matter } => write!(f, "round {round}: list: {matter}"),
            Line::Snapshot(end) => write!(f, "snapshot: {end}"),
            Line::Forgotten(forgotten) => write!(f, "forgotten: {forgotten}"),
            Line::Unforgotten => f.write_str("nothing is forgotten: no memory"),
            Line::Withdrawn(matter) => write!(f, "withdrawn: {matter}"),
            Line::Output => f.write_str("standard output fails: no further round is made"),
            Line::Gate {
                number,
                address,
                end,
            } => write!(f, "gate {number} ({address}) ended: {end}"),
            Line::Status { address, end } => write!(f, "status ({address}) ended: {end}"),
        }
    }
}

/// The name of an archive as a text.
pub fn name_text(name: &ArchiveName) -> &str
    ensures { result.now ≡ name.now }
{
    match str::from_utf8(name.as_bytes()) {
        Ok(text) => text,
        Err(_) => unreachable!(),
    }
}
