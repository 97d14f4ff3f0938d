//! The thread of the rounds at work: it makes rounds, and hands out their jobs.
ghost use Rattle.std.specs.Prelude.{◌≡◌};

use crate::taking::Heard;
use harvest_workers::{Assignment, WalkRules};
use harvester::SocketRuntime;
use part_gates::NamesBase;
use round_course::{Course, EndedRound, TICK};
use round_pulls::pull_all;
use round_walks::{tend_wishes, walk_here};
use service_ledger::Begins;
use service_settings::Settings;
use service_threads::{Pool, Pullers};
use std::io::Write;
use std::rt::Files;
use std::thread;
use std::time::Duration;

/// How many jobs are passed over at most before the thread of the rounds looks at what is due.
const MOST_PASSED: usize = 4_096;

/// What the thread of the rounds works with.
#[derive(Drop)]
pub(crate) struct Rounds<'a, R, P: WalkRules + Begins + NamesBase, L: Copy> {
    pub(crate) course: Course<'a, R, P, L>,
    pub(crate) pool: &'a Pool<P>,
    pub(crate) pullers: &'a Pullers,
}

/// What handing out jobs came to.
#[derive(Clone, Copy, Debug, PartialEq, Eq)]
enum Handed {
    /// There may be more to hand out at once.
    More,
    /// All hands are busy, or no archive may be asked now.
    Enough,
}

/// Whether there may be something to do between two rounds.
fn is_tended_between(settings: &Settings) -> bool {
    settings.timing.pull.is_some()
        || settings.storing.snapshot.is_some()
        || settings.status.is_some()
}

impl<'a, R, P, L> Rounds<'a, R, P, L>
where
    R: SocketRuntime + Files,
    P: WalkRules + Begins + NamesBase,
    L: Write + Copy,
{
    /// Makes the round with this number, and logs what went wrong. What is refused for lack of memory isn't
    /// appended and isn't counted.
    pub(crate) fn make(&mut self, number: u64) -> EndedRound
        ensures { result.number ≡ number }
    {
        self.course.begin_round(number);
        self.harvest();
        self.course.log_round(number);
        if !self.pullers.are_some() {
            pull_all(&mut self.course);
        } else if self.course.settings().timing.pull.is_none() {
            self.pull_beside();
        }
        self.course.end_round(number)
    }

    /// Walks each archive for each original, as far as the schedule allows, and takes in what comes.
    fn harvest(&mut self) {
        self.course.begin_progress();
        for _ in self.course.rt.forever() {
            self.accept_waiting();
            self.hand_wishes();
            let handed = self.hand_out();
            if self.course.is_harvested() {
                break;
            }
            if handed == Handed::Enough {
                let wait = self.course.wait_time();
                if self.accept_news(wait) == Heard::Gone {
                    break;
                }
            }
            self.tend();
        }
        self.course.end_harvest();
    }

    /// Hands out as many jobs as there are hands, or one if wishes stand on the desk, since one of them may go next.
    /// Jobs that needn't be walked are passed over.
    fn hand_out(&mut self) -> Handed {
        for _ in 0..MOST_PASSED {
            if self.course.standing.walks() >= self.pool.hands() {
                return Handed::Enough;
            }
            let now = self.course.now().0;
            let Some(turn) = self.course.standing.schedule.offer(now) else {
                return Handed::Enough;
            };
            if self.course.passes_over(turn) {
                continue;
            }
            if let Some(assignment) = self.course.begin_job(turn, now) {
                let _ = self.give(assignment);
            }
            if self.course.standing.out == 0 || self.course.standing.desk.has_wishes() {
                // It was walked in this thread, or a wish may go next.
                return Handed::More;
            }
        }
        Handed::More
    }

    /// Gives a job to a worker. Without a worker it is walked at once. Returns whether a worker has it.
    pub(crate) fn give(&mut self, assignment: Assignment<P>) -> bool {
        self.course.add_out(assignment.errand());
        match self.pool.give(self.course.rt, assignment) {
            Ok(()) => true,
            Err(assignment) => {
                walk_here(&mut self.course, assignment);
                false
            }
        }
    }

    /// Goes on with wishes for at most so many milliseconds. Returns how many have passed. What peers gave is left to
    /// the caller.
    pub(crate) fn serve_wishes(&mut self, most: u64) -> u64 {
        let begun = self.course.now();
        self.accept_waiting();
        self.hand_wishes();
        let now = self.course.now();
        let wait = self.course.standing.desk.wait(now).min(most);
        let heard = self.accept_news(wait);
        if heard == Heard::Gone {
            let _ = thread::sleep(self.course.rt, Duration::from_millis(wait));
        }
        tend_wishes(&mut self.course);
        self.course.tend_snapshot();
        self.course.show_memory();
        // Without a clock no time passes by the watch, and the pause would not end.
        let waited = if heard == Heard::Report { 0 } else { wait };
        self.course.now().since(begun).max(waited)
    }

    /// Waits between two rounds: for the pause of the settings, or as long as absent archives sleep. Where peers are
    /// pulled and snapshots written, that goes on meanwhile, and so do wishes.
    pub(crate) fn wait_between(&mut self) {
        let settings = self.course.settings();
        let course = &mut self.course;
        let pause = course.standing.absences.end(settings);
        if self.course.shared.book.is_open() {
            self.serve_between(pause);
            return;
        }
        if !is_tended_between(settings) {
            let _ = thread::sleep(self.course.rt, Duration::from_millis(pause));
            return;
        }
        for begun in (0..pause).step_by(TICK as usize) {
            let left = pause.saturating_sub(begun).min(TICK);
            let _ = thread::sleep(self.course.rt, Duration::from_millis(left));
            self.tend_peers();
            self.course.tend_snapshot();
            self.course.show_memory();
        }
    }

    /// Goes on with wishes and peers for so many milliseconds.
    fn serve_between(&mut self, pause: u64) {
        let mut left = pause;
        for _ in self.course.rt.forever() {
            if left == 0 {
                return;
            }
            left = left.saturating_sub(self.serve_wishes(left));
            self.tend_peers();
        }
    }
}
