//! A round's beginning, its end, and the jobs of its turns.
ghost use Rattle.std.specs.Prelude.{◌≡◌, ℕ, IfSome, Some, false, slice_get, true};
ghost use Rattle.std.specs.Arc.{arc_value};
ghost use Rattle.harvest_workers.specs.declared.errands.Errand.TheVariants.{Round as OfRound};
ghost use Rattle.round_values.specs.Counts.{round_after};
ghost use Rattle.round_values.specs.Revisions.{revision_of as revision_by_rule};
ghost use Rattle.round_standing.specs.Listing.{list_of};
ghost use Rattle.round_course.specs.Permits.{GaveTurn, IsNeedless};
ghost use Rattle.round_course.specs.Publishes.{Publishes};

use crate::course::Course;
use harvest_schedule::{Turn, Verdict};
use harvest_workers::{Assignment, Errand, WalkRules};
use harvester::SocketRuntime;
use part_gates::NamesBase;
use round_standing::tells_more;
use round_values::{Round, second_now};
use service_ledger::Begins;
use std::io::Write;
use std::rt::Files;

/// What a round came to that has ended. Only `Course::end_round` says so.
#[derive(Debug, Drop)]
pub struct EndedRound {
    number: u64,
    round: Round,
}

impl EndedRound {
    /// The number under which the round was ended.
    pub fn number(&self) -> u64
        ensures { result ≡ self.now.number }
    {
        self.number
    }

    /// What the round had come to.
    pub fn round(&self) -> Round
        ensures { result ≡ self.now.round }
    {
        self.round
    }
}

impl<R, P, L> Course<'_, R, P, L>
where
    R: SocketRuntime + Files,
    P: WalkRules + Begins + NamesBase,
    L: Write + Copy,
{
    /// Begins the round with this number: reads what is listed and what is withdrawn, and tells the book of wishes.
    pub fn begin_round(&mut self, number: u64)
        ensures number { self.new.standing.number ≡ number }
    {
        let settings = self.settings();
        self.read_list(number);
        self.read_rule();
        let alloc = self.alloc();
        self.standing.begin(alloc, settings, number);
        self.standing.begun = second_now(self.rt);
        self.book_listed();
        self.book_room();
        self.show_progress();
    }

    /// The jobs of the round are begun: the log is told how far they are from now on.
    pub fn begin_progress(&mut self) {
        let begun = self.now();
        self.standing.dues.progress.done(begun);
    }

    /// Whether no job of the round is out or left.
    pub fn is_harvested(&self) -> bool
        ensures { result ≡ true → self.now.standing.out ≡ 0 }
    {
        let now = self.now().0;
        self.standing.out == 0 && self.standing.schedule.is_over(now)
    }

    /// The jobs of the round are over. Jobs that weren't handed out are logged.
    pub fn end_harvest(&mut self) {
        self.log_left();
        self.standing.end();
    }

    /// Logs what went wrong in the round with this number.
    pub fn log_round(&mut self, number: u64) {
        let settings = self.settings();
        let (alloc, log) = (self.alloc(), self.console.log);
        let tells = tells_more(settings);
        self.standing
            .notes
            .tell(alloc, number, settings, tells, log);
        self.log_turned_away(number);
        self.log_dropped(number);
    }

    /// Publishes what the round with this number brought, and ends it. Returns what it came to.
    pub fn end_round(&mut self, number: u64) -> EndedRound
        ensures number { result.number ≡ number }
        ensures counts { result.round ≡ round_after result.round.published self.old.standing.round }
        ensures pending { self.new.standing.round.pending ≡ result.round.pending }
        ensures merger { Publishes result.round.published self.old.ledger.now.merger self.new.ledger.now.merger }
    {
        self.log_left_out(number);
        let round = self.publish();
        self.show_round();
        // Where memory was refused, what was appended still waits for a publish.
        self.standing.round = Round {
            pending: round.pending,
            ..Round::NONE
        };
        EndedRound { number, round }
    }

    /// Passes over the job of a turn, if it needn't be walked. Returns whether it is passed over.
    pub fn passes_over(&mut self, turn: Turn) -> bool
        ensures needless { result ≡ true → IsNeedless (arc_value self.old.terms.now.settings)
            self.old.standing.forgetting.withdrawn self.old.ledger.now.merger
            (list_of self.old.standing.originals.all (arc_value self.old.terms.now.settings).originals) turn }
        ensures same { result ≡ false → self.new.standing.passed ≡ self.old.standing.passed }
    {
        let is_passed = self.is_known(turn) || self.is_withdrawn(turn);
        is_passed && self.standing.pass_turn(turn)
    }

    /// Hands out the job of a turn, by leave of the schedule to ask its archive at this millisecond. `None` if the
    /// schedule gives no leave, or if the job can't be made: memory was refused, or the URL is too long.
    pub fn begin_job(&mut self, turn: Turn, now: u64) -> Option<Assignment<P>>
        ensures allowed { IfSome result (λ _. GaveTurn turn now self.old.standing.schedule self.new.standing.schedule) }
        ensures errand { IfSome result (λ it. it.errand ≡ OfRound turn) }
        ensures original { IfSome result (λ it. slice_get (list_of self.old.standing.originals.all
            (arc_value self.old.terms.now.settings).originals) turn.original ≡ Some it.job.original) }
        ensures revision { IfSome result (λ it. (second : ℕ) × (it.job.revision
            ≡ revision_by_rule (arc_value self.old.terms.now.settings)
            (record { round = self.old.standing.begun.0; second = second }))) }
    {
        let permit = self.standing.schedule.hand_out(turn, now)?;
        let Some(assignment) = self.assignment_of(permit, turn, second_now(self.rt)) else {
            self.note_unwalked(turn);
            return None;
        };
        Some(assignment)
    }

    /// Notes that the job of a turn couldn't be made.
    fn note_unwalked(&mut self, turn: Turn) {
        let now = self.now().0;
        let _ = self.standing.schedule.done(turn, Verdict::Unknown, now);
        self.standing.round.add_job();
        self.standing.notes.add_unwalked();
    }

    /// Counts a walk for this errand as out.
    pub fn add_out(&mut self, errand: Errand)
        ensures ledger { self.new.ledger.now.merger ≡ self.old.ledger.now.merger }
        ensures forgetting { self.new.standing.forgetting ≡ self.old.standing.forgetting }
    {
        match errand {
            Errand::Round(_) => self.standing.add_out(),
            Errand::Wish { archive: _ } => self.standing.desk.add_out(),
        }
    }
}
