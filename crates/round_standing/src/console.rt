//! What an operator is told of the rounds: lines of the log, and the status.
use crate::listing::Originals;
use forgetting::Forgot;
use harvest_schedule::Mood;
use harvester::SocketRuntime;
use published_index::Merger;
use round_values::{Keeping, Log, Millis, Second, known_in, second_now};
use service_log::{Line, ListMatter, Matter, PeerFault, Progress, Want, name_text};
use service_settings::Settings;
use service_status::{
    EntryCounts, ListStatus, PullEnd, RoomStatus, RoundStatus, WalkEnd, WishCounts, resident_bytes,
};
use service_threads::Telling;
use std::alloc::{AllocGlobal, Global};
use std::io::Write;
use std::rt::Files;
use wishing_gates::WishBook;

/// How many milliseconds lie at least between two counts of all mementos within a round.
const COUNT: u64 = 60_000;

/// How many milliseconds lie at least between two looks at the memory that is held, and at late wishes.
const MEASURE: u64 = 1_000;

/// The second in which this moment comes, if it is now that moment and that second.
fn second_of(until: u64, now: Millis, second: Second) -> Second {
    let left = Millis(until).since(now).div_ceil(1_000);
    Second(second.0.saturating_add(left))
}

/// In which second an archive of this mood is asked again, if it is now this moment and this second; the first second
/// of 1970 if it isn't dormant, and `None` if one walk finds out whether it is.
fn dormant_until(mood: Option<Mood>, now: Millis, second: Second) -> Option<Second> {
    match mood {
        Some(Mood::Dormant { until, .. }) => Some(second_of(until, now, second)),
        Some(Mood::Probed) => None,
        _ => Some(Second(0)),
    }
}

/// The same of an archive that asked to be left alone; the first second of 1970 if it didn't, and `None` if one walk
/// finds out whether it is still busy.
fn aside_until(mood: Option<Mood>, now: Millis, second: Second) -> Option<Second> {
    match mood {
        Some(Mood::Aside { until, .. }) => Some(second_of(until, now, second)),
        Some(Mood::Tried { .. }) => None,
        _ => Some(Second(0)),
    }
}

/// Whether so many milliseconds have passed since something was done last, if it was.
fn is_over(last: Option<Millis>, most: u64, now: Millis) -> bool {
    match last {
        Some(last) => last.after(most).0 <= now.0,
        None => true,
    }
}

/// A walk that ended, and where it left its archive.
#[derive(Clone, Copy, Debug)]
pub struct WalkShown {
    /// The place of the archive.
    pub archive: usize,
    pub end: WalkEnd,
    pub begun: Second,
    pub mood: Option<Mood>,
}

/// Tells an operator what happens.
#[derive(Drop)]
pub struct Console<'a, R, L: Copy> {
    pub rt: &'a R,
    pub log: Log<L>,
    pub telling: &'a Telling,
}

impl<R, L> Console<'_, R, L>
where
    R: SocketRuntime + Files,
    L: Write + Copy,
{
    fn alloc(&self) -> Global {
        self.rt.alloc()
    }

    pub fn log_line(&self, line: Line<'_>) {
        self.log.tell(self.alloc(), line);
    }

    /// Logs something of the archive at this place.
    pub fn log_archive(&self, settings: &Settings, round: u64, place: usize, matter: Matter<'_>) {
        if let Some(archive) = settings.archives.get(place) {
            let name = name_text(&archive.name);
            self.log_line(Line::Archive {
                round,
                name,
                matter,
            });
        }
    }

    /// Logs that a peer gave nothing.
    pub fn log_peer(&self, round: u64, base: &str, fault: PeerFault) {
        self.log_line(Line::Peer { round, base, fault });
    }

    /// Logs how far a round is.
    pub fn log_progress(&self, round: u64, progress: Progress) {
        self.log_line(Line::Progress { round, progress });
    }

    /// Logs how often something was wanting since the last round, if it was.
    pub fn log_wanting(&self, round: u64, count: u64, want: Want) {
        if count > 0 {
            self.log_line(Line::Wanting { round, count, want });
        }
    }

    pub fn log_list(&self, round: u64, matter: ListMatter) {
        self.log_line(Line::List { round, matter });
    }

    /// Logs which lines of the file of originals hold none, and shows how many, if it was read.
    pub fn log_bad(&self, round: u64, originals: &Originals) {
        let Some(bad) = originals.bad() else {
            return;
        };
        for line in &bad.first {
            self.log_list(round, ListMatter::Bad(*line as u64));
        }
        let more = bad.count.saturating_sub(bad.first.len());
        if more > 0 {
            self.log_list(round, ListMatter::More(more as u64));
        }
        self.show_bad_lines(bad.count as u64);
    }

    /// Shows a walk, if it is now this moment.
    pub fn show_walk(&self, walk: WalkShown, now: Millis) {
        let board = self.telling.board();
        if !board.is_open() {
            return;
        }
        let WalkShown {
            archive: place,
            end,
            begun,
            mood,
        } = walk;
        let second = second_now(self.rt);
        board.add_walk(self.rt, place, end, second.since(begun));
        if let Some(until) = dormant_until(mood, now, second) {
            board.set_dormant(self.rt, place, until.0);
        }
        if let Some(until) = aside_until(mood, now, second) {
            board.set_aside(self.rt, place, until.0);
        }
    }

    /// Shows how a pull from the peer with this number ended.
    pub fn show_pull(&self, number: u64, end: PullEnd) {
        let board = self.telling.board();
        if board.is_open() {
            board.add_pull(self.rt, number, end, second_now(self.rt).0);
        }
    }

    /// Shows how many entries the answer of a peer brought.
    pub fn show_entries(&self, peer: u64, entries: EntryCounts) {
        self.telling.board().add_entries(self.rt, peer, entries);
    }

    /// Shows that a part of a peer's delta was taken.
    pub fn show_part(&self, peer: u64) {
        let board = self.telling.board();
        if board.is_open() {
            board.add_part(self.rt, peer, second_now(self.rt).0);
        }
    }

    /// Shows how far the round is.
    pub fn show_progress(&self, progress: Progress) {
        let board = self.telling.board();
        if !board.is_open() {
            return;
        }
        let round = RoundStatus {
            jobs: progress.jobs,
            done: progress.done,
            passed: progress.passed,
        };
        board.set_round(self.rt, round);
    }

    /// Shows how much memory is held, and how many wishes came too late, if that was shown at this moment and a second
    /// has passed since. Returns when it was shown last.
    pub fn show_memory(
        &self,
        shown: Option<Millis>,
        book: &WishBook,
        now: Millis,
    ) -> Option<Millis> {
        let board = self.telling.board();
        if !board.is_open() || !is_over(shown, MEASURE, now) {
            return shown;
        }
        board.set_resident(self.rt, resident_bytes(self.rt));
        let late = WishCounts {
            late: book.late(self.rt),
            ..WishCounts::NONE
        };
        board.add_wishes(self.rt, late);
        Some(now)
    }

    /// Shows whether a snapshot was written that was tried just now.
    pub fn show_kept(&self, keeping: &Keeping) {
        let board = self.telling.board();
        if !board.is_open() {
            return;
        }
        if keeping.is_behind() {
            board.add_unwritten(self.rt);
        } else {
            board.add_snapshot(self.rt, second_now(self.rt).0);
        }
    }

    /// Shows whether something is published that the last snapshot lacks.
    pub fn show_behind(&self, keeping: &Keeping) {
        let is_behind = keeping.is_behind();
        self.telling.board().set_behind(self.rt, is_behind);
    }

    /// Shows how many of the wanted originals are known, if so many more may be wished for.
    pub fn show_room(&self, room: usize, wanted: usize) {
        let room = RoomStatus {
            used: wanted.saturating_sub(room) as u64,
            most: wanted as u64,
        };
        self.telling.board().set_room(self.rt, room);
    }

    /// Shows that the file of originals was read, and how many of its lines hold none.
    fn show_bad_lines(&self, bad: u64) {
        let last = second_now(self.rt).0;
        let board = self.telling.board();
        board.set_list(self.rt, ListStatus { bad, last });
    }

    /// Shows what a publish came to. What is known is counted once a minute. Returns whether it is to be counted now,
    /// if it was counted at this moment.
    pub fn show_publish(&self, is_published: bool, counted: Option<Millis>, now: Millis) -> bool {
        let board = self.telling.board();
        if !board.is_open() {
            return false;
        }
        if is_published {
            board.add_publish(self.rt, second_now(self.rt).0);
        } else {
            board.add_refused(self.rt);
        }
        is_over(counted, COUNT, now)
    }

    /// Shows how much is published, and how much of it isn't listed, if that is counted.
    pub fn show_known(&self, merger: &Merger, unlisted: Option<u64>) {
        let known = known_in(merger.published_state(), second_now(self.rt));
        let board = self.telling.board();
        board.set_known(self.rt, known);
        if let Some(mementos) = unlisted {
            board.set_unlisted(self.rt, mementos);
        }
    }

    /// Shows that a round is over. Returns whether anybody looks.
    pub fn show_round(&self) -> bool {
        let board = self.telling.board();
        if board.is_open() {
            board.add_round(self.rt);
        }
        board.is_open()
    }

    /// Tells what a forgetting came to, which took so many milliseconds and left nothing older than this second.
    pub fn tell_forgotten(&self, forgot: Forgot, floor: u64, took: u64) {
        let board = self.telling.board();
        board.add_forgetting(self.rt, forgot.entries, floor);
        self.log_line(Line::Forgotten(forgot.told(took)));
    }

    /// Tells that memory was refused for a forgetting.
    pub fn tell_unforgotten(&self) {
        self.telling.board().add_unforgotten(self.rt);
        self.log_line(Line::Unforgotten);
    }

    /// Counts so many wishes more.
    pub fn show_wishes(&self, more: WishCounts) {
        self.telling.tell_wishes(self.rt, more);
    }
}
