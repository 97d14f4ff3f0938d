//! Where the rounds stand.
ghost use Rattle.std.specs.Prelude.{◌≡◌, ◌||◌, ◌+◌, ◌-◌, ◌*◌, ◌^◌, IfOk, None, false, is_some, length, min, true};
ghost use Rattle.std.specs.List.{list_all};
ghost use Rattle.forgetting.specs.Renewing.{is_withdrawn_by};
ghost use Rattle.harvest_schedule.specs.Steps.{Answers, Passed};
ghost use Rattle.harvest_schedule.specs.declared.schedules.Schedule.{Schedule as ScheduleOf};
ghost use Rattle.harvest_workers.specs.Errands.{archive_of};
ghost use Rattle.round_values.specs.Ahead.{is_ahead as is_ahead_of};
ghost use Rattle.round_values.specs.Keeping.{after_publish};
ghost use Rattle.round_standing.specs.Listing.{jobs_of, list_of};
ghost use Rattle.round_standing.specs.Paces.{Begins, IsAt, IsNew, LeavesAsked, Passes};
ghost use Rattle.round_standing.specs.Verdicts.{IsTold, NotesPresent};
ghost use Rattle.round_standing.specs.Verdicts as verdicts;

use crate::listing::Originals;
use crate::paces::schedule_of;
use crate::peers::Peers;
use forgetting::Forgetting;
use harvest_lattice::Harvest;
use harvest_schedule::{Mood, Schedule, Turn, Verdict};
use harvest_workers::Errand;
use memento_time::{NoMemory, Original};
use round_values::{
    Absences, Desk, Dues, Keeping, Millis, Notes, PublishEnd, Round, Second, is_ahead,
    is_left_alone, is_waited_for,
};
use service_log::{Dormancy, JobsLeft, Matter, Progress, Respite};
use service_settings::Settings;
use std::alloc::{AllocError, Global};

/// From how many seconds on the log is told that an archive asked to be left alone.
const LONG: u64 = 60;

/// What a publish comes to that shows what was kept of all that was known.
const FORGOTTEN: PublishEnd = PublishEnd {
    is_appended: true,
    is_published: true,
};

/// Where the rounds stand.
#[derive(Drop)]
pub struct Standing {
    /// Lasts over rounds, so that what an archive answered in one counts in the next.
    pub schedule: Schedule,
    pub absences: Absences,
    pub dues: Dues,
    pub keeping: Keeping,
    pub peers: Peers,
    /// How many harvests weren't taken since that was told, since they are ahead of the clock.
    pub left_out: u64,
    /// The number of the round, counted from 1.
    pub number: u64,
    pub round: Round,
    pub notes: Notes,
    /// In which second the last round began; the first second of 1970 before the first round.
    pub begun: Second,
    /// How many jobs of the round are out.
    pub out: usize,
    /// How many jobs of the round were passed over.
    passed: u64,
    /// Granted wishes.
    pub desk: Desk,
    pub originals: Originals,
    /// When all mementos were counted last, if the status is told of them.
    pub counted: Option<Millis>,
    /// When the memory that is held was looked at last, if the status is told of it.
    pub measured: Option<Millis>,
    pub forgetting: Forgetting,
    /// How many harvests of wishes weren't kept for lack of room since that was told.
    pub dropped: u64,
    /// Whether something was learnt since the gates were told to be ready.
    pub has_learnt: bool,
}

/// Whether the settings have a key by which more is told than the specified lines.
pub fn tells_more(settings: &Settings) -> bool
    ensures { result ≡ (is_some settings.now.asking.tolerance || (is_some settings.now.timing.again
        || (is_some settings.now.timing.publish || is_some settings.now.timing.pull))) }
{
    settings.asking.tolerance.is_some()
        || settings.timing.again.is_some()
        || settings.timing.publish.is_some()
        || settings.timing.pull.is_some()
}

/// Whether an archive failed too often, and hasn't answered since.
fn is_asleep(mood: Option<Mood>) -> bool {
    matches!(mood, Some(Mood::Dormant { .. } | Mood::Probed))
}

/// Whether a walk that ended so shows that its archive is there, in a round: an archive that refuses what it is asked
/// for is there as well.
fn shows_presence(errand: Errand, verdict: Verdict) -> bool
    ensures { result ≡ verdicts.shows_presence errand verdict }
{
    match errand {
        Errand::Round(_) => matches!(verdict, Verdict::Answered | Verdict::There),
        Errand::Wish { archive: _ } => false,
    }
}

/// How many jobs a round has that looks after so many originals.
fn jobs_in(settings: &Settings, originals: usize) -> u64
    ensures { result ≡ min (originals * length settings.now.archives.items) (2 ^ 64 - 1) }
{
    originals.saturating_mul(settings.archives.len()) as u64
}

/// Of how many archives something is noted for wishes.
fn windows_of(settings: &Settings) -> usize {
    match settings.wishing.wanted {
        Some(_) => settings.archives.len(),
        None => 0,
    }
}

impl Standing {
    /// Before the first round, with what was noted of the snapshot.
    pub fn new(
        alloc: Global,
        settings: &Settings,
        keeping: Keeping,
        incarnation: u64,
    ) -> Result<Standing, AllocError>
        ensures schedule { IfOk result (λ standing. IsNew settings.now standing.schedule) }
        ensures rule { IfOk result (λ standing. standing.forgetting.withdrawn ≡ None) }
        ensures keeping { IfOk result (λ it. it.keeping ≡ keeping) }
        ensures out { IfOk result (λ it. (it.out ≡ 0) × (it.passed ≡ 0)) }
        ensures told { IfOk result (λ it. (it.left_out ≡ 0) × (it.dropped ≡ 0)) }
    {
        let now = Millis(0);
        Ok(Standing {
            schedule: schedule_of(alloc, settings)?,
            absences: Absences::new(alloc, settings.archives.len())?,
            dues: Dues::new(settings, tells_more(settings), now),
            keeping,
            peers: Peers::new(alloc, settings.peers.len())?,
            left_out: 0,
            number: 1,
            round: Round::NONE,
            notes: Notes::new(alloc, settings),
            begun: Second(0),
            out: 0,
            passed: 0,
            desk: Desk::new(alloc, windows_of(settings))?,
            originals: Originals::NONE,
            counted: None,
            measured: None,
            forgetting: Forgetting::new(alloc, settings, incarnation, now),
            dropped: 0,
            has_learnt: false,
        })
    }

    /// The originals that rounds look after.
    pub fn list<'a>(&'a self, settings: &'a Settings) -> &'a [Original]
        ensures { result.now ≡ list_of self.now.originals.all settings.now.originals }
    {
        self.originals.listed(settings)
    }

    /// Whether something was appended that isn't published.
    pub fn has_pending(&self) -> bool
        ensures { result ≡ (self.now.round.pending || is_some self.now.desk.due) }
    {
        self.round.pending || self.desk.has_pending()
    }

    /// How many walks are out.
    pub fn walks(&self) -> usize
        ensures { result ≡ min (self.now.out + self.now.desk.out) (2 ^ 64 - 1) }
    {
        self.out.saturating_add(self.desk.out())
    }

    /// Begins the round with this number. What was pulled since the last one counts in it. The jobs of archives that it
    /// doesn't ask are passed over, also of those that may not be asked now, so that it doesn't wait for them.
    pub fn begin(&mut self, alloc: Global, settings: &Settings, number: u64)
        ensures number { self.new.number ≡ number }
        ensures passed { (begun : ScheduleOf) × Begins (length (list_of self.old.originals.all settings.now.originals))
            self.old.schedule begun × Passes 0 begun self.new.passed self.new.schedule
            × LeavesAsked self.new.absences begun self.new.schedule }
        ensures rest { self.new ≡ record self.old {
          schedule = self.new.schedule;
          absences = self.new.absences;
          number = self.new.number;
          notes = self.new.notes;
          passed = self.new.passed;
        } }
    {
        let originals = self.list(settings).len();
        // It is refused only while a job is out, and a round ends when none is, or when no worker is left to end it.
        let _ = self.schedule.begin(originals);
        self.absences.begin(originals);
        self.number = number;
        self.notes = Notes::new(alloc, settings);
        self.passed = 0;
        for archive in 0..settings.archives.len() {
            self.pass_unasked(archive, originals);
        }
    }

    /// Passes over all jobs of an archive, unless the round asks it.
    fn pass_unasked(&mut self, archive: usize, originals: usize)
        ensures passed { Passes self.old.passed self.old.schedule self.new.passed self.new.schedule }
        ensures asked { LeavesAsked self.old.absences self.old.schedule self.new.schedule }
        ensures rest { self.new ≡ record self.old { schedule = self.new.schedule; passed = self.new.passed } }
    {
        if !self.absences.is_asked(archive) {
            self.pass_all(archive, originals);
        }
    }

    /// Passes over all jobs of an archive.
    fn pass_all(&mut self, archive: usize, originals: usize)
        ensures passed { Passes self.old.passed self.old.schedule self.new.passed self.new.schedule }
        ensures others { IsAt archive self.old.schedule self.new.schedule }
        ensures rest { self.new ≡ record self.old { schedule = self.new.schedule; passed = self.new.passed } }
    {
        for original in 0..originals {
            let _ = self.pass_job(Turn { archive, original });
        }
    }

    /// Passes over the job of a turn, and counts it. Returns whether it was the next of its archive.
    fn pass_job(&mut self, turn: Turn) -> bool
        ensures schedule { Answers self.old.schedule.limits turn.archive (Passed turn.original) result
            self.old.schedule.lanes.items self.new.schedule.lanes.items }
        ensures count { result ≡ true → self.new.passed ≡ min (self.old.passed + 1) (2 ^ 64 - 1) }
        ensures same { result ≡ false → self.new.passed ≡ self.old.passed }
        ensures passed { Passes self.old.passed self.old.schedule self.new.passed self.new.schedule }
        ensures others { IsAt turn.archive self.old.schedule self.new.schedule }
        ensures rest { self.new ≡ record self.old { schedule = self.new.schedule; passed = self.new.passed } }
    {
        let is_passed = self.schedule.pass_over(turn);
        if is_passed {
            self.passed = self.passed.saturating_add(1);
        }
        is_passed
    }

    /// Ends a round: no archive has a job left, so that no wish waits for one before the next round begins.
    pub fn end(&mut self)
        ensures { self.new ≡ record self.old { schedule = self.new.schedule } }
    {
        // As in `begin`.
        let _ = self.schedule.begin(0);
    }

    /// How many jobs a round has.
    pub fn jobs(&self, settings: &Settings) -> u64
        ensures { result ≡ jobs_of (list_of self.now.originals.all settings.now.originals) settings.now.archives.items }
    {
        jobs_in(settings, self.list(settings).len())
    }

    /// How far the round is.
    pub fn progress(&self, settings: &Settings) -> Progress
        ensures { result ≡ record {
          done = min (self.now.round.jobs + self.now.passed) (2 ^ 64 - 1);
          jobs = jobs_of (list_of self.now.originals.all settings.now.originals) settings.now.archives.items;
          failed = self.now.notes.failed;
          passed = self.now.passed;
        } }
    {
        Progress {
            done: self.round.jobs.saturating_add(self.passed),
            jobs: self.jobs(settings),
            failed: self.notes.failed(),
            passed: self.passed,
        }
    }

    /// One job more of the round is out.
    pub fn add_out(&mut self)
        ensures { self.new ≡ record self.old { out = min (self.old.out + 1) (2 ^ 64 - 1) } }
    {
        self.out = self.out.saturating_add(1);
    }

    /// A job of the round that was out has ended.
    pub fn end_out(&mut self)
        ensures { self.new ≡ record self.old { out = self.old.out - 1 } }
    {
        self.out = self.out.saturating_sub(1);
    }

    /// Passes over the job of a turn, whose archive is asked. Returns whether it was the next of its archive.
    pub fn pass_turn(&mut self, turn: Turn) -> bool
        ensures schedule { Answers self.old.schedule.limits turn.archive (Passed turn.original) result
            self.old.schedule.lanes.items self.new.schedule.lanes.items }
        ensures passed { result ≡ true → self.new.passed ≡ min (self.old.passed + 1) (2 ^ 64 - 1) }
        ensures present { result ≡ true → NotesPresent turn.archive self.old.absences self.new.absences }
        ensures same { result ≡ false → self.new.passed ≡ self.old.passed }
        ensures absent { result ≡ false → self.new.absences ≡ self.old.absences }
        ensures rest { self.new ≡ record self.old {
          schedule = self.new.schedule;
          absences = self.new.absences;
          passed = self.new.passed;
        } }
    {
        let is_passed = self.pass_job(turn);
        if is_passed {
            self.absences.note_present(turn.archive);
        }
        is_passed
    }

    /// Notes in the schedule what the walk of an errand told of its archive, which ended at this moment.
    pub fn note_verdict(&mut self, errand: Errand, verdict: Verdict, now: Millis)
        ensures told { IsTold errand verdict now.0 self.old.schedule self.new.schedule }
        ensures present { verdicts.shows_presence errand verdict ≡ true
            → NotesPresent (archive_of errand) self.old.absences self.new.absences }
        ensures absent { verdicts.shows_presence errand verdict ≡ false → self.new.absences ≡ self.old.absences }
        ensures rest { self.new ≡ record self.old { schedule = self.new.schedule; absences = self.new.absences } }
    {
        // Both refuse only a walk that isn't out, and this one was.
        let _ = match errand {
            Errand::Round(turn) => self.schedule.done(turn, verdict, now.0),
            Errand::Wish { archive } => self.schedule.end_walk(archive, verdict, now.0),
        };
        if shows_presence(errand, verdict) {
            self.absences.note_present(errand.archive());
        }
    }

    /// What the log is to be told, once each in a round: that an archive is dormant, or that it answers again.
    pub fn mood_matter(
        &mut self,
        settings: &Settings,
        place: usize,
        before: Option<Mood>,
    ) -> Option<Matter<'static>>
        ensures rest { self.new ≡ record self.old { notes = self.new.notes } }
    {
        let failures = settings.asking.tolerance?;
        let sleeps = is_asleep(self.schedule.mood(place));
        if sleeps == is_asleep(before) || !self.notes.tells_mood(place, sleeps) {
            return None;
        }
        let left = self.schedule.left(place) as u64;
        if sleeps {
            Some(Matter::Dormant(Dormancy {
                failures,
                seconds: settings.asking.dormant,
                left,
            }))
        } else {
            Some(Matter::Awake(left))
        }
    }

    /// What the log is to be told, once each time: that an archive asked to be left alone for long.
    pub fn aside_matter(
        &self,
        place: usize,
        before: Option<Mood>,
        now: Millis,
    ) -> Option<Matter<'static>> {
        let Some(Mood::Aside { until, .. }) = self.schedule.mood(place) else {
            return None;
        };
        let seconds = Millis(until).since(now).div_ceil(1_000);
        // Walks that were out when it was set aside tell nothing new.
        if seconds < LONG || is_left_alone(before, now) {
            return None;
        }
        let left = self.schedule.left(place) as u64;
        Some(Matter::Aside(Respite {
            seconds,
            left: JobsLeft(left),
        }))
    }

    /// Whether a harvest isn't taken, since it is ahead of the last second whose harvests are. It is counted.
    pub fn is_left_out(&mut self, harvest: &Harvest, last: Second) -> bool
        ensures ahead { result ≡ is_ahead_of last.0 harvest.now.revision }
        ensures counted { result ≡ true
            → self.new ≡ record self.old { left_out = min (self.old.left_out + 1) (2 ^ 64 - 1) } }
        ensures same { result ≡ false → self.new ≡ self.old }
    {
        if !is_ahead(harvest.revision(), last) {
            return false;
        }
        self.left_out = self.left_out.saturating_add(1);
        true
    }

    /// How many harvests weren't taken since that was asked last, since they were ahead of the clock.
    pub fn take_left_out(&mut self) -> u64
        ensures count { result ≡ self.old.left_out }
        ensures rest { self.new ≡ record self.old { left_out = 0 } }
    {
        let count = self.left_out;
        self.left_out = 0;
        count
    }

    /// How many harvests of wishes weren't kept for lack of room since that was asked last.
    pub fn take_dropped(&mut self) -> u64
        ensures count { result ≡ self.old.dropped }
        ensures rest { self.new ≡ record self.old { dropped = 0 } }
    {
        let count = self.dropped;
        self.dropped = 0;
        count
    }

    /// Notes what a publish came to.
    pub fn note_publish(&mut self, end: PublishEnd, now: Millis)
        ensures { self.new ≡ record self.old {
          desk = self.new.desk;
          keeping = after_publish self.old.keeping end.is_appended end.is_published;
          forgetting = self.new.forgetting;
        } }
    {
        self.desk.note_publish(end.is_published, now);
        self.keeping.note_publish(end);
        if end.is_published {
            self.forgetting.note_publish();
        }
    }

    /// Notes that what was kept of all that was known is published.
    pub fn note_forgotten(&mut self)
        ensures { self.new ≡ record self.old { keeping = after_publish self.old.keeping true true } }
    {
        self.keeping.note_publish(FORGOTTEN);
    }

    /// Whether all that archives have of an original is withdrawn.
    pub fn is_all_withdrawn(
        &self,
        settings: &Settings,
        original: &Original,
    ) -> Result<bool, NoMemory>
        ensures { IfOk result (λ all. all ≡ list_all (λ archive.
            is_withdrawn_by self.now.forgetting.withdrawn (archive.name, original.now))
            settings.now.archives.items) }
    {
        for archive in &settings.archives {
            if !self.forgetting.has_withdrawn(archive.name, original)? {
                return Ok(false);
            }
        }
        Ok(true)
    }

    /// Has wishes wait for an archive that named a time within a minute, and skips any other. Returns whether they
    /// wait.
    fn waits_for(&mut self, archive: usize, now: Millis) -> bool
        ensures { self.new ≡ record self.old { desk = self.new.desk } }
    {
        let mood = self.schedule.mood(archive);
        let since = self.desk.aside_since(archive);
        let waits = is_waited_for(mood, since, now);
        if waits {
            self.desk.wait_for(archive, now);
        } else {
            self.desk.skip(archive);
        }
        waits
    }

    /// Has the job of a busy archive come again, if wishes wait for it. Returns whether it does.
    pub fn walks_again(&mut self, archive: usize, original: &Original, now: Millis) -> bool
        ensures { self.new ≡ record self.old { desk = self.new.desk } }
    {
        self.waits_for(archive, now) && self.desk.add_again(original, archive)
    }

    /// Lets no wish wait for archives that aren't asked before a later time, but for those that named one within a
    /// minute; nor for archives that couldn't be asked for one patience.
    pub fn skip_archives(&mut self, settings: &Settings, now: Millis) {
        let patience = settings.patience.saturating_mul(1_000);
        for archive in 0..settings.archives.len() {
            if !self.desk.is_refused(archive) {
                continue;
            }
            if is_left_alone(self.schedule.mood(archive), now) {
                let _ = self.waits_for(archive, now);
            } else if self.desk.is_overdue(archive, patience, now) {
                self.desk.skip(archive);
            }
        }
    }
}
