//! What is due while rounds are made.
use crate::making::Rounds;
use harvest_workers::WalkRules;
use harvester::SocketRuntime;
use part_gates::NamesBase;
use round_pulls::{accept_pull, ask_peers};
use round_walks::tend_wishes;
use service_ledger::Begins;
use std::io::Write;
use std::rt::Files;

impl<R, P, L> Rounds<'_, R, P, L>
where
    R: SocketRuntime + Files,
    P: WalkRules + Begins + NamesBase,
    L: Write + Copy,
{
    /// Does what is due: takes in what peers gave, pulls, publishes, and logs how far the round is.
    pub(crate) fn tend(&mut self) {
        self.tend_peers();
        tend_wishes(&mut self.course);
        self.course.tend_snapshot();
        self.course.show_progress();
        self.course.show_memory();
        self.course.log_progress();
    }

    /// Takes in what peers gave, pulls and publishes, where that is due.
    pub(crate) fn tend_peers(&mut self) {
        for _ in 0..self.course.settings().peers.len() {
            let Some(answer) = self.pullers.answered(self.course.rt) else {
                break;
            };
            accept_pull(&mut self.course, self.pullers, answer);
        }
        let now = self.course.now();
        if self.course.standing.dues.pull.is_due(now) {
            let course = &mut self.course;
            course.standing.dues.pull.done(now);
            ask_peers(&mut self.course, self.pullers);
        }
        self.course.publish_round();
        let _ = self.course.tend_forgetting();
        self.course.tend_ready();
    }
}
