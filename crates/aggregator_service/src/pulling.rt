//! Peers are pulled, before the first round, in each, and beside them.
use crate::making::Rounds;
use harvest_workers::WalkRules;
use harvester::SocketRuntime;
use part_gates::NamesBase;
use round_course::TICK;
use round_pulls::{accept_pull, ask_peers};
use round_values::Millis;
use service_ledger::Begins;
use service_log::{Greeting, Line};
use service_threads::PullAnswer;
use std::io::Write;
use std::rt::Files;

impl<R, P, L> Rounds<'_, R, P, L>
where
    R: SocketRuntime + Files,
    P: WalkRules + Begins + NamesBase,
    L: Write + Copy,
{
    /// Pulls each peer before the first round, and publishes what each gives as it comes. Waits for one patience at
    /// most; what comes later is taken in later.
    pub(crate) fn greet(&mut self) {
        let settings = self.course.settings();
        if settings.timing.pull.is_none() || !self.pullers.are_some() {
            return;
        }
        let end = self
            .course
            .now()
            .after(settings.patience.saturating_mul(1_000));
        ask_peers(&mut self.course, self.pullers);
        let gave = self.accept_greetings(end);
        let greeting = Greeting {
            gave,
            peers: settings.peers.len() as u64,
        };
        self.course.console.log_line(Line::Start(greeting));
    }

    /// Takes in what peers give until no peer is being pulled, or until this moment, and publishes it as it comes.
    /// Returns how many peers gave news.
    fn accept_greetings(&mut self, end: Millis) -> u64 {
        let mut gave = 0u64;
        for _ in self.course.rt.forever() {
            if !self.course.standing.peers.are_pulled() {
                return gave;
            }
            let left = end.since(self.course.now());
            let Some(answer) = self.wait_answer(left) else {
                return gave;
            };
            let peer = answer.peer;
            let gave_before = self.course.standing.peers.has_news(peer);
            accept_pull(&mut self.course, self.pullers, answer);
            if !gave_before && self.course.standing.peers.has_news(peer) {
                gave = gave.saturating_add(1);
            }
            if self.course.standing.round.pending {
                self.course.publish();
            }
        }
        unreachable!()
    }

    /// What a peer gave, if one answers within so many milliseconds. Wishes go on meanwhile, and what peers gave is
    /// taken in by the caller alone.
    fn wait_answer(&mut self, most: u64) -> Option<PullAnswer> {
        if !self.course.shared.book.is_open() {
            return self.pullers.wait(self.course.rt, most);
        }
        let mut left = most;
        for _ in self.course.rt.forever() {
            let answer = self.pullers.answered(self.course.rt);
            if answer.is_some() || left == 0 {
                return answer;
            }
            left = left.saturating_sub(self.serve_wishes(left));
        }
        unreachable!()
    }

    /// Pulls each peer, and waits until each has answered. Wishes go on meanwhile.
    pub(crate) fn pull_beside(&mut self) {
        ask_peers(&mut self.course, self.pullers);
        for _ in self.course.rt.forever() {
            if !self.course.standing.peers.are_pulled() {
                return;
            }
            let _ = self.serve_wishes(TICK);
            self.tend_peers();
        }
    }
}
