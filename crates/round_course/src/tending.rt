//! What is due while rounds are made: publishes, snapshots, and lines of the log.
ghost use Rattle.std.specs.Prelude.{◌≡◌, ◌||◌, ℕ, Bool, false, is_some, true};
ghost use Rattle.round_values.specs.Counts.{round_after};
ghost use Rattle.round_values.specs.Dues.{IsDue};
ghost use Rattle.round_values.specs.Keeping.{after_publish};
ghost use Rattle.round_course.specs.Publishes.{Publishes, published_as};

use crate::course::Course;
use harvest_workers::WalkRules;
use harvester::SocketRuntime;
use part_gates::NamesBase;
use published_index::Merger;
use round_values::{PublishEnd, Round};
use service_ledger::Begins;
use service_settings::Settings;
use std::io::Write;
use std::rt::Files;

/// Whether something is published, so many peers were heard in the round, or there is nobody to learn from.
fn has_learnt(settings: &Settings, merger: &Merger, pulls: u64, jobs: u64) -> bool {
    let is_known = !merger.published_state().is_empty();
    is_known || pulls > 0 || jobs == 0 && settings.peers.is_empty()
}

impl<R, P, L> Course<'_, R, P, L>
where
    R: SocketRuntime + Files,
    P: WalkRules + Begins + NamesBase,
    L: Write + Copy,
{
    /// Logs how far the round is, where that is due.
    pub fn log_progress(&mut self) {
        let now = self.now();
        if self.standing.dues.progress.is_due(now) {
            self.standing.dues.progress.done(now);
            let progress = self.standing.progress(self.settings());
            self.console.log_progress(self.standing.number, progress);
        }
    }

    /// Publishes what the round brought so far, where that is due.
    pub fn publish_round(&mut self)
        ensures none { self.old.standing.round.pending ≡ false
            → self.new.ledger.now.merger ≡ self.old.ledger.now.merger }
        ensures due { self.old.standing.round.pending ≡ true → (now : ℕ)
            × (IsDue self.old.standing.dues.publish now → (self.new.standing.dues.publish.last.0 ≡ now)
            × (published : Bool)
            × Publishes published self.old.ledger.now.merger self.new.ledger.now.merger)
            × ((¬ IsDue self.old.standing.dues.publish now)
            → self.new.ledger.now.merger ≡ self.old.ledger.now.merger) }
    {
        let now = self.now();
        if self.standing.round.pending && self.standing.dues.publish.is_due(now) {
            self.publish();
            self.standing.dues.publish.done(now);
        }
    }

    /// Publishes what is pending, has forgotten what is beyond what is wanted, and writes a snapshot, where that is
    /// due. Returns what the round has come to by then.
    pub fn publish(&mut self) -> Round
        ensures counts { result ≡ round_after result.published self.old.standing.round }
        ensures merger { Publishes result.published self.old.ledger.now.merger self.new.ledger.now.merger }
    {
        let round = self.publish_known();
        self.note_learnt();
        self.show_publish(round.published);
        self.book_room();
        self.console.show_behind(&self.standing.keeping);
        let _ = self.tend_forgetting();
        self.tend_snapshot();
        round
    }

    /// Publishes what is pending, and notes what that came to. Returns what the round has come to by then.
    fn publish_known(&mut self) -> Round
        ensures counts { result ≡ round_after result.published self.old.standing.round }
        ensures round { self.new.standing.round ≡ result }
        ensures keeping { self.new.standing.keeping ≡ after_publish self.old.standing.keeping
            (self.old.standing.round.pending || is_some self.old.standing.desk.due) result.published }
        ensures merger { self.new.ledger.now.merger ≡ published_as result.published self.old.ledger.now.merger }
    {
        let is_appended = self.standing.has_pending();
        let (number, log) = (self.standing.number, self.console.log);
        self.ledger
            .publish(self.rt, &mut self.standing.round, number, log);
        let round = self.standing.round;
        let end = PublishEnd {
            is_appended,
            is_published: round.published,
        };
        let now = self.now();
        self.standing.note_publish(end, now);
        round
    }

    /// Notes whether something is shown, or nobody can be learnt from: then the gates are ready once no part is to
    /// come.
    fn note_learnt(&mut self)
        ensures ledger { self.new.ledger.now.merger ≡ self.old.ledger.now.merger }
    {
        let settings = self.settings();
        let jobs = self.standing.jobs(settings);
        let pulls = self.standing.round.pulls;
        let is_published = self.standing.round.published;
        if is_published && has_learnt(settings, self.ledger.merger(), pulls, jobs) {
            self.standing.has_learnt = true;
            self.tend_ready();
        }
    }

    /// The gates are ready once something was learnt, and no part of a peer's delta is to come: before its last part
    /// came, not all is known that the peer has. A part that doesn't come for one patience isn't waited for.
    pub fn tend_ready(&mut self)
        ensures ledger { self.new.ledger.now.merger ≡ self.old.ledger.now.merger }
    {
        let patience = self.settings().patience.saturating_mul(1_000);
        let now = self.now();
        if self.standing.has_learnt && !self.standing.peers.are_unfinished(now, patience) {
            self.standing.has_learnt = false;
            self.shared.readiness.set();
            self.shared.telling.tell_shown(self.rt);
        }
    }

    /// Writes a snapshot, where one is due.
    pub fn tend_snapshot(&mut self)
        ensures ledger { self.new.ledger.now.merger ≡ self.old.ledger.now.merger }
    {
        let now = self.now();
        if self.standing.keeping.is_due(now) {
            self.keep();
        }
    }

    /// Writes a snapshot, if the settings ask for one and it would have more than the last one.
    pub fn keep(&mut self)
        ensures ledger { self.new.ledger.now.merger ≡ self.old.ledger.now.merger }
    {
        let Some(path) = &self.settings().storing.snapshot else {
            return;
        };
        if self.standing.keeping.is_behind() {
            let log = self.console.log;
            self.standing
                .keeping
                .keep(self.rt, path.as_str(), self.ledger.merger(), log);
            let now = self.now();
            self.standing.keeping.tried(now);
            self.console.show_kept(&self.standing.keeping);
        }
    }

    /// Shows how far the round is.
    pub fn show_progress(&self) {
        let progress = self.standing.progress(self.settings());
        self.console.show_progress(progress);
    }

    /// Shows each second how much memory is held, and how many wishes came too late.
    pub fn show_memory(&mut self)
        ensures ledger { self.new.ledger.now.merger ≡ self.old.ledger.now.merger }
    {
        let now = self.now();
        let shown = self.standing.measured;
        self.standing.measured = self.console.show_memory(shown, &self.shared.book, now);
    }

    /// Shows what a publish came to, and once a minute how much is known.
    fn show_publish(&mut self, is_published: bool)
        ensures ledger { self.new.ledger.now.merger ≡ self.old.ledger.now.merger }
    {
        let now = self.now();
        let counted = self.standing.counted;
        if self.console.show_publish(is_published, counted, now) {
            self.count_known();
        }
    }

    /// Shows how much is published.
    fn count_known(&mut self)
        ensures ledger { self.new.ledger.now.merger ≡ self.old.ledger.now.merger }
    {
        let unlisted = self.standing.forgetting.mementos();
        self.console.show_known(self.ledger.merger(), unlisted);
        let now = self.now();
        self.standing.counted = Some(now);
    }

    /// Shows that a round is over, and how much is known.
    pub(crate) fn show_round(&mut self)
        ensures ledger { self.new.ledger.now.merger ≡ self.old.ledger.now.merger }
    {
        self.show_progress();
        self.show_memory();
        if self.console.show_round() {
            self.count_known();
        }
    }
}
