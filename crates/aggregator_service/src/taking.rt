//! What workers report is taken in.
use crate::making::Rounds;
use harvest_workers::WalkRules;
use harvester::SocketRuntime;
use part_gates::NamesBase;
use round_walks::accept_report;
use service_ledger::Begins;
use service_threads::News;
use std::io::Write;
use std::rt::Files;

/// What came while the thread of the rounds waited.
#[derive(Clone, Copy, Debug, PartialEq, Eq)]
pub(crate) enum Heard {
    /// A walk ended.
    Report,
    Nothing,
    /// No worker is left.
    Gone,
}

impl<R, P, L> Rounds<'_, R, P, L>
where
    R: SocketRuntime + Files,
    P: WalkRules + Begins + NamesBase,
    L: Write + Copy,
{
    /// Waits so many milliseconds for what comes, and takes it in.
    pub(crate) fn accept_news(&mut self, wait: u64) -> Heard {
        match self.pool.news(self.course.rt, wait) {
            News::Report(report) => {
                accept_report(&mut self.course, report);
                Heard::Report
            }
            News::Nothing => Heard::Nothing,
            News::Gone => Heard::Gone,
        }
    }

    /// Takes in the reports that wait. A job is handed out only then, since one of them may say that its archive is
    /// busy.
    pub(crate) fn accept_waiting(&mut self) {
        for _ in 0..self.pool.hands() {
            let Some(report) = self.pool.waiting(self.course.rt) else {
                return;
            };
            accept_report(&mut self.course, report);
        }
    }
}
