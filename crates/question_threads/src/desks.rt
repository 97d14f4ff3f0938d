//! The thread that asks: it hands out walks, takes in what comes, and writes answers in the order of the questions.
ghost use Rattle.std.specs.Prelude.{◌≡◌, ◌==◌, [], length, IfOk, OnOk, OnErr};
ghost use Rattle.std.specs.Arc.{arc_value};
ghost use Rattle.question_threads.specs.Queued.{BreaksOff, Writes, with_one, without_first};

use crate::clocks::Watch;
use crate::faults::AskFault;
use crate::pool::Pool;
use crate::queue::Queue;
use crate::telling::Teller;
use crate::terms::{NoJob, Terms};
use crate::writing::write_text;
use harvest_schedule::{Limits, Mood, Pace, Permit, Schedule, Turn, Verdict};
use harvest_workers::{Assignment, Errand, WalkReport, WalkRules, verdict_of};
use harvester::SocketRuntime;
use memento_time::{NoMemory, Original, second_now};
use service_settings::Sources;
use single_questions::{Failing, Outcome, Want};
use std::alloc::{AllocError, AllocGlobal, Global};
use std::io::Write;

/// For how many milliseconds to wait at most for what comes.
pub(crate) const TICK: u64 = 10;

/// How many originals are asked for at once.
#[derive(Clone, Copy, Debug, PartialEq, Eq)]
pub(crate) enum Count {
    One,
    Many,
}

/// What the thread that asks works with.
#[derive(Drop)]
pub(crate) struct Desk<'a, R, P: WalkRules, E: Copy> {
    pub(crate) rt: &'a R,
    terms: &'a Terms<P>,
    pool: &'a Pool<P>,
    count: Count,
    teller: Teller<E>,
    watch: Watch,
    schedule: Schedule,
    /// The questions that aren't answered yet.
    pub(crate) queue: Queue<P>,
    /// How many walks are out.
    out: usize,
    /// How many questions were answered.
    answered: usize,
    /// What those that were answered come to.
    outcome: Outcome,
}

/// How often each archive is asked.
fn schedule_of(alloc: Global, sources: &Sources) -> Result<Schedule, AllocError> {
    let limits = Limits {
        tolerance: sources.asking.tolerance,
        pause: sources.asking.dormant.saturating_mul(1_000),
    };
    let mut paces = Vec::with_capacity(alloc, sources.archives.len())?;
    for archive in &sources.archives {
        let at_once = archive.at_once.unwrap_or(sources.asking.at_once);
        paces.push(Pace {
            at_once: at_once as usize,
            every: archive.every.unwrap_or(0),
        })?;
    }
    Schedule::new(alloc, limits, &paces, 0)
}

/// Whether an archive isn't asked before a later time.
fn is_left_alone(mood: Option<Mood>, now: u64) -> bool {
    match mood.and_then(Mood::asked_from) {
        Some(until) => now < until,
        None => false,
    }
}

impl<'a, R, P, E> Desk<'a, R, P, E>
where
    R: SocketRuntime,
    P: WalkRules,
    E: Write + Copy,
{
    pub(crate) fn new(
        rt: &'a R,
        terms: &'a Terms<P>,
        pool: &'a Pool<P>,
        want: Want,
        count: Count,
        teller: Teller<E>,
    ) -> Result<Desk<'a, R, P, E>, NoMemory>
        ensures { IfOk result (λ desk. desk.queue
            ≡ record { want = want; base = (arc_value terms.now.sources).base; originals = [] }) }
    {
        let schedule = schedule_of(rt.alloc(), terms.sources())?;
        let queue = Queue::new(rt.alloc(), want, &terms.sources().base)?;
        Ok(Desk {
            rt,
            terms,
            pool,
            count,
            teller,
            watch: Watch::start(rt),
            schedule,
            queue,
            out: 0,
            answered: 0,
            outcome: Outcome::Found,
        })
    }

    /// Whether all questions are answered.
    pub(crate) fn is_done(&self) -> bool
        ensures { result ≡ (length self.now.queue.originals == 0) }
    {
        self.queue.len() == 0
    }

    /// Whether one question more may be taken: no more are in memory than walks run at once.
    pub(crate) fn has_room(&self) -> bool {
        self.queue.len() < self.pool.hands()
    }

    /// What the questions that were answered come to.
    pub(crate) fn outcome(&self) -> Outcome {
        self.outcome
    }

    /// Says that the line with this number holds no original.
    pub(crate) fn tell_bad_line(&mut self, number: u64)
        ensures { self.new.queue ≡ self.old.queue }
    {
        self.teller.bad_line(number);
    }

    fn now(&self) -> u64 {
        self.watch.now(self.rt)
    }

    /// Takes a question.
    pub(crate) fn add(&mut self, original: Original) -> Result<(), NoMemory>
        ensures ok { OnOk result (self.new.queue ≡ with_one self.old.queue original) }
        ensures err { OnErr result (self.new.queue ≡ self.old.queue) }
    {
        let archives = self.terms.sources().archives.len();
        self.queue.add(self.rt.alloc(), original, archives)?;
        self.show_progress();
        Ok(())
    }

    /// Hands out as many walks as there are hands, those of the first questions first.
    pub(crate) fn hand_out(&mut self) -> Result<(), AskFault>
        ensures { self.new.queue ≡ self.old.queue }
    {
        for place in 0..self.queue.len() {
            self.hand_out_of(place)?;
        }
        Ok(())
    }

    /// Hands out walks of the question at this place.
    fn hand_out_of(&mut self, place: usize) -> Result<(), AskFault>
        ensures { self.new.queue ≡ self.old.queue }
    {
        for archive in 0..self.terms.sources().archives.len() {
            if self.out >= self.pool.hands() {
                return Ok(());
            }
            if self.queue.is_to_ask(place, archive) {
                self.hand(place, archive)?;
            }
        }
        Ok(())
    }

    /// Hands out the walk of an archive for the question at this place, if the archive may be asked now. If it isn't
    /// asked before a later time, the question doesn't wait for it.
    fn hand(&mut self, place: usize, archive: usize) -> Result<(), AskFault>
        ensures { self.new.queue ≡ self.old.queue }
    {
        let now = self.now();
        let Some(permit) = self.schedule.begin_walk(archive, now, false) else {
            if is_left_alone(self.schedule.mood(archive), now) {
                self.give_up(place, archive, Failing::Unasked);
            }
            return Ok(());
        };
        match self.assignment(place, permit) {
            Ok(assignment) => self.walk(place, archive, assignment),
            Err(NoJob::NoMemory) => Err(AskFault::NoMemory),
            Err(NoJob::TooLong) => {
                let _ = self.schedule.end_walk(archive, Verdict::Unknown, now);
                self.give_up(place, archive, Failing::TooLong);
                Ok(())
            }
        }
    }

    fn assignment(&self, place: usize, permit: Permit) -> Result<Assignment<P>, NoJob> {
        let Some(question) = self.queue.get(place) else {
            return Err(NoJob::TooLong);
        };
        let second = second_now(self.rt);
        self.terms
            .assignment(self.rt.alloc(), permit, question.original(), second)
    }

    /// Gives a job to a worker. Without a worker it is walked at once.
    fn walk(
        &mut self,
        place: usize,
        archive: usize,
        assignment: Assignment<P>,
    ) -> Result<(), AskFault>
        ensures { self.new.queue ≡ self.old.queue }
    {
        self.queue.ask(place, archive);
        self.out = self.out.saturating_add(1);
        match self.pool.give(self.rt, assignment) {
            Ok(()) => Ok(()),
            Err(assignment) => {
                let report = self.terms.walk(self.rt, assignment);
                self.take(report)
            }
        }
    }

    /// An archive isn't asked for the question at this place.
    fn give_up(&mut self, place: usize, archive: usize, failing: Failing)
        ensures { self.new.queue ≡ self.old.queue }
    {
        self.queue.give_up(place, archive);
        self.tell_failed(place, archive, failing);
    }

    /// Says why an archive failed.
    fn tell_failed(&mut self, place: usize, archive: usize, failing: Failing)
        ensures { self.new.queue ≡ self.old.queue }
    {
        let Some(question) = self.queue.get(place) else {
            return;
        };
        let Some(listed) = self.terms.sources().archives.get(archive) else {
            return;
        };
        match self.count {
            Count::One => self.teller.failed(None, &listed.name, failing),
            Count::Many => {
                let original = Some(question.original());
                self.teller.failed(original, &listed.name, failing);
            }
        }
    }

    /// Takes in what workers report.
    fn take(&mut self, report: WalkReport<P>) -> Result<(), AskFault>
        ensures { self.new.queue ≡ self.old.queue }
    {
        let opened = report.open();
        let archive = opened.errand.archive();
        // Whoever asks picked the originals, so what their walks come to counts as in a round.
        let errand = Errand::Round(Turn {
            archive,
            original: 0,
        });
        let verdict = verdict_of(errand, &opened.result, opened.asked, self.now());
        let now = self.now();
        let _ = self.schedule.end_walk(archive, verdict, now);
        self.out = self.out.saturating_sub(1);
        let Some(place) = self.queue.place_of(archive, &opened.job.original) else {
            return Ok(());
        };
        if let Some(failing) = self.queue.take(place, opened)? {
            self.tell_failed(place, archive, failing);
        }
        self.show_progress();
        Ok(())
    }

    /// Takes in the reports that wait.
    pub(crate) fn take_waiting(&mut self) -> Result<(), AskFault>
        ensures { self.new.queue ≡ self.old.queue }
    {
        for _ in 0..self.pool.hands() {
            let Some(report) = self.pool.waiting(self.rt) else {
                return Ok(());
            };
            self.take(report)?;
        }
        Ok(())
    }

    /// Waits for a report, and takes it in.
    pub(crate) fn wait(&mut self) -> Result<(), AskFault>
        ensures { self.new.queue ≡ self.old.queue }
    {
        match self.pool.wait(self.rt, TICK) {
            Some(report) => self.take(report),
            None => Ok(()),
        }
    }

    /// Shows how far the questions are.
    fn show_progress(&mut self)
        ensures { self.new.queue ≡ self.old.queue }
    {
        match self.count {
            Count::One => {
                let ended = self.queue.get(0).map_or(0, |question| question.ended());
                let all = self.terms.sources().archives.len();
                self.teller.progress(ended, Some(all));
            }
            Count::Many => self.teller.progress(self.answered, None),
        }
    }

    /// Writes the answers of the first questions, as far as all archives have answered.
    pub(crate) fn write_ready<W: Write>(&mut self, out: &mut W) -> Result<(), AskFault>
        ensures ok { OnOk result
            (Writes P.jobs P.answers P.faults self.old.queue self.new.queue (W.contents out.old) (W.contents out.new)) }
        ensures err { OnErr result
            (BreaksOff P.jobs P.answers P.faults self.old.queue (W.contents out.old) (W.contents out.new)) }
    {
        for _ in 0..self.queue.len() {
            if !self.write_first(out)? {
                return Ok(());
            }
        }
        Ok(())
    }

    /// Writes the answer of the first question, if all archives have answered. Returns whether it did.
    fn write_first<W: Write>(&mut self, out: &mut W) -> Result<bool, AskFault>
        ensures ok { OnOk result
            (Writes P.jobs P.answers P.faults self.old.queue self.new.queue (W.contents out.old) (W.contents out.new)) }
        ensures err { OnErr result
            (BreaksOff P.jobs P.answers P.faults self.old.queue (W.contents out.old) (W.contents out.new)) }
    {
        let Some(text) = self.queue.ready(self.rt.alloc())? else {
            return Ok(false);
        };
        self.teller.clear();
        write_text(&text, out)?;
        self.leave_first();
        Ok(true)
    }

    /// Leaves out the first question, and counts what it came to.
    fn leave_first(&mut self)
        ensures { self.new.queue ≡ without_first self.old.queue }
    {
        if let Some(outcome) = self.queue.leave() {
            self.outcome = self.outcome.worse(outcome);
            self.answered = self.answered.saturating_add(1);
        }
    }
}
