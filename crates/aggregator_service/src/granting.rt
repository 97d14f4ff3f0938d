//! The thread of the rounds at work for wishes. The schedule has them and the jobs of a round take turns.
use crate::making::Rounds;
use harvest_workers::WalkRules;
use harvester::SocketRuntime;
use part_gates::NamesBase;
use round_walks::{begin_wish_job, grant_wishes};
use service_ledger::Begins;
use std::io::Write;
use std::rt::Files;

impl<R, P, L> Rounds<'_, R, P, L>
where
    R: SocketRuntime + Files,
    P: WalkRules + Begins + NamesBase,
    L: Write + Copy,
{
    /// Grants what readers wish for, and hands out its jobs, as far as there are hands and archives may be asked.
    pub(crate) fn hand_wishes(&mut self) {
        if !self.course.shared.book.is_open() {
            return;
        }
        grant_wishes(&mut self.course);
        let course = &mut self.course;
        course.standing.desk.allow_all();
        let settings = self.course.settings();
        let most = self.pool.hands().saturating_add(settings.archives.len());
        for _ in 0..most {
            if !self.hand_wish() {
                break;
            }
        }
        let now = self.course.now();
        let course = &mut self.course;
        course.standing.skip_archives(settings, now);
    }

    /// Hands out a job of a wish, or finds that its archive can't be asked now. Returns whether there may be more.
    fn hand_wish(&mut self) -> bool {
        let free = self
            .pool
            .hands()
            .saturating_sub(self.course.standing.walks());
        if free == 0 {
            return false;
        }
        let Some(job) = self.course.standing.desk.next() else {
            return false;
        };
        match begin_wish_job(&mut self.course, &job, free == 1) {
            Some(assignment) => self.give(assignment),
            None => true,
        }
    }
}
