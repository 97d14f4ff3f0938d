//! What is withdrawn, and what is known beyond what is wanted, is forgotten while rounds are made.
ghost use Rattle.std.specs.Prelude.{◌≡◌, ◌||◌, ℕ, [], IfOk, false, is_some, not, true};
ghost use Rattle.std.specs.Arc.{arc_value};
ghost use Rattle.round_course.specs.Asking as spec;
ghost use Rattle.round_course.specs.Asking.{held_for};
ghost use Rattle.round_course.specs.Permits.{IsWithdrawnAt};
ghost use Rattle.round_course.specs.Publishes.{has_forgotten};
ghost use Rattle.round_standing.specs.Listing.{list_of};
ghost use Rattle.forgetting.specs.Renewing.{ForgetsSome};
ghost use Rattle.forgetting.specs.Sifting.{Sifts};
ghost use Rattle.round_values.specs.Dues.{IsDue};
ghost use Rattle.service_ledger.specs.Leads.{IsPart};

use crate::course::Course;
use crate::known::job_at;
use forgetting::{Forgot, Ways};
use harvest_schedule::Turn;
use harvest_workers::WalkRules;
use harvester::SocketRuntime;
use memento_time::NoMemory;
use part_gates::NamesBase;
use replica_exchange::{Cursor, Delta, TakeFault};
use round_values::Millis;
use service_ledger::Begins;
use service_log::PeerFault;
use service_threads::forgets;
use std::hash::RandomState;
use std::io::Write;
use std::rt::Files;

impl<'a, R, P, L> Course<'a, R, P, L>
where
    R: SocketRuntime + Files,
    P: WalkRules + Begins + NamesBase,
    L: Write + Copy,
{
    /// By what something is forgotten, if these settings have it.
    fn ways(&self) -> Option<Ways<'a, R, L, P>> {
        if !forgets(self.settings()) {
            return None;
        }
        Some(Ways {
            rt: self.rt,
            settings: self.settings(),
            keys: self.shared.keys?,
            slots: &self.shared.slots,
            watch: self.watch,
            log: self.console.log,
        })
    }

    /// The keys of the sets by which it is told what is forgotten, if these settings have it.
    fn rule_keys(&self) -> Option<RandomState>
        ensures { is_some result ≡ spec.forgets (arc_value self.now.terms.now.settings) }
    {
        if forgets(self.settings()) {
            self.shared.keys
        } else {
            None
        }
    }

    /// Reads what is withdrawn and what is listed, and forgets at once what is withdrawn. Then a snapshot is written,
    /// which has it no more.
    pub(crate) fn read_rule(&mut self) {
        let Some(ways) = self.ways() else {
            return;
        };
        let begun = self.now();
        let settings = self.settings();
        let list = self.standing.originals.listed(settings);
        let is_wider = self
            .standing
            .forgetting
            .take_rule(self.rt, settings, ways.keys, list, ways.log);
        if is_wider {
            self.standing.peers.drop_leads();
        }
        if !self.standing.forgetting.has_news() || !self.publish_pending() {
            return;
        }
        let ended = self
            .ledger
            .forget_withdrawn(&mut self.standing.forgetting, &ways);
        if self.note_forgotten(ended, begun) {
            self.keep();
        }
    }

    /// Publishes what is pending, since who begins anew has none of it. Returns whether nothing is pending any more.
    fn publish_pending(&mut self) -> bool
        ensures { result ≡ true → self.new.ledger.now.merger.pending ≡ [] }
    {
        if self.may_have_pending() {
            self.publish();
        }
        !self.may_have_pending()
    }

    /// Whether something may be pending.
    fn may_have_pending(&self) -> bool
        ensures { result ≡ false → self.now.ledger.now.merger.pending ≡ [] }
    {
        self.standing.has_pending() || self.ledger.merger().may_have_pending()
    }

    /// Forgets what is known beyond what is wanted, where that is due, nothing is pending, and all that is listed is
    /// known. Returns whether something is forgotten.
    pub fn tend_forgetting(&mut self) -> bool
        ensures some { result ≡ true → ForgetsSome self.old.standing.forgetting.withdrawn
            self.old.standing.forgetting.listed self.old.ledger.now.merger self.new.ledger.now.merger }
        ensures due { result ≡ true → (now : ℕ) × IsDue self.old.standing.forgetting.due now }
        ensures pending { result ≡ true → self.old.ledger.now.merger.pending ≡ [] }
        ensures listed { result ≡ true → (is_some self.old.standing.originals.all
            || not (is_some (arc_value self.old.terms.now.settings).wishing.originals_file)) ≡ true }
        ensures none { result ≡ false → self.new.ledger.now.merger ≡ self.old.ledger.now.merger }
    {
        let is_known = self.standing.originals.is_whole(self.settings());
        if self.may_have_pending() || !is_known {
            return false;
        }
        let Some(ways) = self.ways() else {
            return false;
        };
        let begun = self.now();
        let ended = self
            .ledger
            .forget_oldest(&mut self.standing.forgetting, &ways);
        self.note_forgotten(ended, begun)
    }

    /// Notes how a forgetting ended that began at this moment. Returns whether something is forgotten.
    fn note_forgotten(&mut self, ended: Result<Option<Forgot>, NoMemory>, begun: Millis) -> bool
        ensures result { result ≡ has_forgotten ended }
        ensures ledger { self.new.ledger.now.merger ≡ self.old.ledger.now.merger }
    {
        match ended {
            Ok(Some(forgot)) => {
                let floor = self.standing.forgetting.floor();
                let took = self.now().since(begun);
                self.console.tell_forgotten(forgot, floor, took);
                self.standing.note_forgotten();
                self.console.show_behind(&self.standing.keeping);
                self.book_room();
                true
            }
            Ok(None) => false,
            Err(_) => {
                self.console.tell_unforgotten();
                false
            }
        }
    }

    /// The cursor that is held for a peer.
    pub fn held(&self, peer: u64) -> Option<Cursor>
        ensures { result ≡ held_for (spec.forgets (arc_value self.now.terms.now.settings))
            self.now.standing.forgetting.cursors self.now.ledger.now.merger.cursors peer }
    {
        if forgets(self.settings()) {
            self.standing.forgetting.held(peer)
        } else {
            self.ledger.merger().cursor(peer)
        }
    }

    /// What is kept of what the answer of the peer with this number brought: what the rule of the rounds keeps, where
    /// something is forgotten, and else all.
    pub fn sift(&self, peer: u64, delta: Delta) -> Result<Delta, PeerFault>
        requires { ∥ IsPart delta ∥₁ }
        ensures part { IfOk result (λ sifted. ∥ IsPart sifted ∥₁) }
        ensures rule { spec.forgets (arc_value self.now.terms.now.settings) ≡ true
            → IfOk result (λ sifted. Sifts self.now.standing.forgetting.withdrawn self.now.standing.forgetting.listed
            delta.state sifted.state) }
        ensures all { spec.forgets (arc_value self.now.terms.now.settings) ≡ false → IfOk result (λ it. it ≡ delta) }
    {
        let Some(keys) = self.rule_keys() else {
            return Ok(delta);
        };
        let sifted = self.standing.forgetting.sift(
            self.alloc(),
            self.settings(),
            keys,
            self.ledger.merger(),
            delta,
        );
        match sifted {
            Ok(sifted) => {
                self.console.show_entries(peer, sifted.entries);
                Ok(sifted.delta)
            }
            Err(_) => Err(PeerFault::Take(TakeFault::NoMemory)),
        }
    }

    /// Whether what the job of a turn would bring is withdrawn. Where memory is refused that isn't told: then the
    /// walk's harvest is looked at once more.
    pub(crate) fn is_withdrawn(&self, turn: Turn) -> bool
        ensures { result ≡ true → IsWithdrawnAt (arc_value self.now.terms.now.settings)
            self.now.standing.forgetting.withdrawn
            (list_of self.now.standing.originals.all (arc_value self.now.terms.now.settings).originals) turn }
    {
        let settings = self.settings();
        let list = self.standing.list(settings);
        let Some((archive, original)) = job_at(settings, list, turn) else {
            return false;
        };
        let forgetting = &self.standing.forgetting;
        match forgetting.has_withdrawn(archive.name, original) {
            Ok(is_withdrawn) => is_withdrawn,
            Err(_) => false,
        }
    }
}
