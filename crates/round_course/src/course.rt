//! What the rounds know and where they stand, apart from the threads that walk and pull for them.
ghost use Rattle.std.specs.Prelude.{◌≡◌, ◌-◌, ◌≤◌, ℕ, IfSome, None, Some, is_some, max, min, slice_get, true};
ghost use Rattle.std.specs.Arc.{arc_value};
ghost use Rattle.harvest_workers.specs.Errands.{archive_of};
ghost use Rattle.harvest_workers.specs.declared.errands.Errand.TheVariants.{Round as OfRound};
ghost use Rattle.round_values.specs.Ahead as ahead;
ghost use Rattle.round_values.specs.Revisions.{revision_of as revision_by_rule};
ghost use Rattle.round_course.specs.Asking as spec;
ghost use Rattle.round_course.specs.Permits.{IsKnownAt};
ghost use Rattle.round_standing.specs.Listing.{list_of};

use crate::known::{is_young, job_at};
use harvest_schedule::{Permit, Turn};
use harvest_workers::{Assignment, Errand, WalkRules};
use harvester::SocketRuntime;
use memento_time::Original;
use part_gates::NamesBase;
use round_standing::{Console, Standing};
use round_values::{Millis, Second, Stopwatch, last_taken, revision_of, second_now};
use service_ledger::{Begins, Ledger};
use service_settings::Settings;
use service_threads::{Shared, Terms, original_of};
use std::alloc::{AllocGlobal, Global};
use std::io::Write;
use std::rt::Files;

/// How many milliseconds the thread of the rounds waits at most before it looks at what is due.
pub const TICK: u64 = 250;

/// What the rounds know and where they stand.
#[derive(Drop)]
pub struct Course<'a, R, P: WalkRules + Begins + NamesBase, L: Copy> {
    pub rt: &'a R,
    pub terms: &'a Terms<P>,
    /// What gates share.
    pub shared: &'a Shared<P>,
    pub watch: Stopwatch,
    /// By it orders of one's own are made.
    pub seed: u64,
    /// Who tells an operator of it.
    pub console: Console<'a, R, L>,
    /// Where the rounds stand.
    pub standing: Standing,
    /// What is known, and what of it is published.
    pub ledger: &'a mut Ledger<P>,
    /// Gates name the base of the settings.
    pub ghost named: { (arc_value terms.now.settings).base ≡ P.base },
    /// Where something is forgotten, there are keys for the sets by which it is told what.
    pub ghost keyed: { spec.forgets (arc_value terms.now.settings) ≡ true → is_some shared.now.keys ≡ true },
}

/// For how many milliseconds to wait: until this moment, and no longer than a tick.
fn wait_until(time: Option<Millis>, now: Millis) -> u64
    ensures most { result ≤ 250 }
    ensures none { time ≡ None → result ≡ 250 }
    ensures some { IfSome time (λ time. result ≡ min (max (time.0 - now.0) 1) 250) }
{
    match time {
        Some(time) => time.since(now).max(1).min(TICK),
        None => TICK,
    }
}

impl<'a, R, P, L> Course<'a, R, P, L>
where
    R: SocketRuntime + Files,
    P: WalkRules + Begins + NamesBase,
    L: Write + Copy,
{
    /// The settings of the service.
    pub fn settings(&self) -> &'a Settings
        ensures { result.now ≡ arc_value self.now.terms.now.settings }
    {
        self.terms.settings()
    }

    pub(crate) fn alloc(&self) -> Global {
        self.rt.alloc()
    }

    /// The present moment.
    pub fn now(&self) -> Millis {
        self.watch.now(self.rt)
    }

    /// The last second whose harvests are taken now.
    pub fn last_taken(&self) -> Second
        ensures { (now : ℕ) × (result.0 ≡ ahead.last_taken (arc_value self.now.terms.now.settings).timing.ahead now) }
    {
        last_taken(self.settings().timing.ahead, second_now(self.rt))
    }

    /// For how many milliseconds to wait for what comes.
    pub fn wait_time(&self) -> u64
        ensures { result ≤ 250 }
    {
        let now = self.now();
        let next = self.standing.schedule.next_time(now.0).map(Millis);
        let wait = wait_until(next, now);
        if self.shared.book.is_open() {
            wait.min(self.standing.desk.wait(now))
        } else {
            wait
        }
    }

    /// Whether what is known of the job of a turn is young enough.
    pub(crate) fn is_known(&self, turn: Turn) -> bool
        ensures { result ≡ true → IsKnownAt (arc_value self.now.terms.now.settings) self.now.ledger.now.merger
            (list_of self.now.standing.originals.all (arc_value self.now.terms.now.settings).originals) turn }
    {
        let settings = self.settings();
        if settings.timing.again_none.is_none() {
            return false;
        }
        let list = self.standing.list(settings);
        let Some((archive, original)) = job_at(settings, list, turn) else {
            return false;
        };
        let merger = self.ledger.merger();
        let second = second_now(self.rt);
        is_young(settings.timing, merger, archive.name, original, second)
    }

    /// The job of an errand's archive, which may be asked, for an original, to be handed out in this second: a round's
    /// or a wish's. `None` if memory is refused, or if its URL is too long.
    pub fn assignment(
        &self,
        permit: Permit,
        errand: Errand,
        original: &Original,
        now: Second,
    ) -> Option<Assignment<P>>
        requires allowed { permit.archive ≡ archive_of errand }
        ensures errand { IfSome result (λ it. it.errand ≡ errand) }
        ensures original { IfSome result (λ it. it.job.original ≡ original.now) }
        ensures revision { IfSome result (λ it. it.job.revision ≡ revision_by_rule (arc_value self.now.terms.now.settings)
            (record { round = self.now.standing.begun.0; second = now.0 })) }
    {
        let revision = revision_of(self.settings(), self.standing.begun, now);
        self.terms
            .assignment(self.alloc(), permit, errand, original, revision)
    }

    /// The job of a turn of the round, whose archive may be asked, to be handed out in this second.
    pub(crate) fn assignment_of(
        &self,
        permit: Permit,
        turn: Turn,
        now: Second,
    ) -> Option<Assignment<P>>
        requires allowed { permit.archive ≡ turn.archive }
        ensures errand { IfSome result (λ it. it.errand ≡ OfRound turn) }
        ensures original { IfSome result (λ it. slice_get (list_of self.now.standing.originals.all
            (arc_value self.now.terms.now.settings).originals) turn.original ≡ Some it.job.original) }
        ensures revision { IfSome result (λ it. it.job.revision ≡ revision_by_rule (arc_value self.now.terms.now.settings)
            (record { round = self.now.standing.begun.0; second = now.0 })) }
    {
        let original = original_of(self.standing.list(self.settings()), turn)?;
        self.assignment(permit, Errand::Round(turn), original, now)
    }
}
