//! The merger of a service, and the calls that it gets.
ghost use Rattle.std.specs.Prelude.{◌≡◌, ◌&&◌, ℕ, [], IfOk, IfSome, None, OnErr, OnOk, false, is_some, true};
ghost use Rattle.std.specs.FinMap as map;
ghost use Rattle.memento_index.specs.declared.merge.Merge.TheVariants.{Harvest as OfHarvest};
ghost use Rattle.replica_exchange.specs.CursorRule.{fits, taken_from};
ghost use Rattle.published_index.specs.Cursors.{IsTaken, with_delta, with_merge, with_publish};
ghost use Rattle.published_index.specs.declared.mergers.TakenAs.TheVariants.{News};
ghost use Rattle.round_values.specs.Counts.{round_after};
ghost use Rattle.round_values.specs.Dues.{IsDue};
ghost use Rattle.round_values.specs.Pulls.{Pulls, PullsNothing, PullsSome, with_pull, with_taken};
ghost use Rattle.forgetting.specs.Renewing.{AreGone, ForgetsSome};
ghost use Rattle.forgetting.specs.Sifting.{TakesAs};
ghost use Rattle.service_ledger.specs.Leads.{IsPart, IsWalked, Leads};

use crate::rules::Begins;
use forgetting::{BeginFault, Forgetting, Forgot, Ways};
use harvest_lattice::Harvest;
use harvest_workers::WalkRules;
use harvester::SocketRuntime;
use memento_index::Merge;
use memento_time::{Clean, NoMemory};
use outgoing_requests::Patience;
use part_gates::NamesBase;
use published_index::{Merger, TakenAs};
use replica_exchange::Delta;
use round_values::{Log, Round};
use service_log::PeerFault;
use std::alloc::AllocGlobal;
use std::io::Write;
use std::marker::PhantomData;
use std::rt::Files;
use std::sync::Wait;
use std::time::Clock;

/// The merger of a service: what is known, and what of it is published. It is what a service may make of the merger
/// with which it began.
///
/// A ledger isn't `Drop`, since its merger isn't. End it with `close`.
pub struct Ledger<P: WalkRules + Begins> {
    merger: Merger,
    of: PhantomData<P>,

    ghost leads: { ∥ Leads P.jobs P.answers P.faults P.begun merger ∥₁ },
}

impl<P: WalkRules + Begins> Ledger<P> {
    /// The ledger of a merger as a start leaves it.
    pub fn new(merger: Merger) -> Ledger<P>
        requires { merger ≡ P.begun }
        ensures { result.merger ≡ merger }
    {
        Ledger {
            merger,
            of: PhantomData,
        }
    }

    /// The merger, to be read.
    pub fn merger(&self) -> &Merger
        ensures merger { result.now ≡ self.now.merger }
        ensures leads { ∥ Leads P.jobs P.answers P.faults P.begun result.now ∥₁ }
    {
        &self.merger
    }

    /// Appends the harvest of a walk.
    pub fn append_walked(&mut self, harvest: Harvest) -> Result<(), NoMemory>
        requires { ∥ IsWalked P.jobs P.answers P.faults harvest ∥₁ }
        ensures ok { OnOk result (self.new.merger ≡ with_merge self.old.merger (OfHarvest harvest)) }
        ensures err { OnErr result (self.new.merger ≡ self.old.merger) }
    {
        self.merger.append(&Merge::Harvest(harvest))
    }

    /// Publishes what is pending, in the round with this number. What is refused stays pending.
    pub fn publish<R, L>(&mut self, rt: &R, round: &mut Round, number: u64, log: Log<L>)
    where
        R: SocketRuntime,
        L: Write + Copy,
        ensures published { round.new.published ≡ true → self.new.merger ≡ with_publish self.old.merger }
        ensures refused { round.new.published ≡ false → self.new.merger ≡ self.old.merger }
        ensures round { round.new ≡ round_after round.new.published round.old }
    {
        round.publish(rt, number, &mut self.merger, log);
    }

    /// Pulls the peer with this number from the cursor that is held, and appends what it answers (`Round::pull`).
    pub fn pull<R>(
        &mut self,
        rt: &R,
        round: &mut Round,
        number: u64,
        peer: &Clean,
        patience: Patience,
    ) -> Result<TakenAs, PeerFault>
    where
        R: SocketRuntime,
        ensures ok { OnOk result (Pulls number round.old self.old.merger round.new self.new.merger) }
        ensures news { IfOk result (λ taken. taken ≡ News) }
        ensures err { OnErr result (PullsNothing round.old self.old.merger round.new self.new.merger) }
    {
        round.pull(rt, &mut self.merger, number, peer, patience)
    }

    /// Appends a delta that the answer of this peer brought, or some of it, if it follows on the cursor that is held
    /// (`Round::append_delta`).
    pub fn append_delta(
        &mut self,
        round: &mut Round,
        number: u64,
        delta: &Delta,
    ) -> Result<TakenAs, PeerFault>
        requires { ∥ IsPart delta.now ∥₁ }
        ensures ok { OnOk result (self.new.merger ≡ with_delta self.old.merger number delta.now) }
        ensures fits { OnOk result (fits (map.get self.old.merger.cursors number) delta.now ≡ true) }
        ensures counted { OnOk result (round.new ≡ with_pull round.old) }
        ensures news { IfOk result (λ taken. taken ≡ News) }
        ensures err { OnErr result (PullsNothing round.old self.old.merger round.new self.new.merger) }
    {
        round.append_delta(&mut self.merger, number, delta)
    }

    /// Takes a delta that the answer of this peer brought, or some of it, if it follows on the cursor that is held. If
    /// all of it was published, the cursor alone moves (`Round::take_delta`).
    pub fn take_delta(
        &mut self,
        round: &mut Round,
        number: u64,
        delta: &Delta,
    ) -> Result<TakenAs, PeerFault>
        requires { ∥ IsPart delta.now ∥₁ }
        ensures merger { IfOk result (λ taken. IsTaken taken self.old.merger number delta.now self.new.merger) }
        ensures fits { OnOk result (fits (map.get self.old.merger.cursors number) delta.now ≡ true) }
        ensures counted { IfOk result (λ taken. round.new ≡ with_taken taken round.old) }
        ensures err { OnErr result (PullsNothing round.old self.old.merger round.new self.new.merger) }
    {
        round.take_delta(&mut self.merger, number, delta)
    }

    /// Appends some of a delta that the answer of a peer brought. The peer's cursor stays.
    pub fn take_some(&mut self, round: &mut Round, delta: Delta) -> Result<TakenAs, PeerFault>
        requires { ∥ IsPart delta ∥₁ }
        ensures ok { OnOk result (PullsSome delta.state round.old self.old.merger round.new self.new.merger) }
        ensures news { IfOk result (λ taken. taken ≡ News) }
        ensures err { OnErr result (PullsNothing round.old self.old.merger round.new self.new.merger) }
    {
        let Delta { state, .. } = delta;
        round.take_some(&mut self.merger, state)
    }

    /// Takes what is kept of a delta that the answer of a peer brought, if it follows on the cursor that is held beside
    /// the merger (`Forgetting::take`).
    pub fn take_kept(
        &mut self,
        forgetting: &mut Forgetting,
        round: &mut Round,
        peer: u64,
        delta: Delta,
    ) -> Result<TakenAs, PeerFault>
        requires { ∥ IsPart delta ∥₁ }
        ensures fits { OnOk result (fits (map.get forgetting.old.cursors peer) delta ≡ true) }
        ensures cursors { OnOk result (forgetting.new.cursors ≡ taken_from forgetting.old.cursors peer delta) }
        ensures taken { IfOk result
            (λ taken. TakesAs taken delta.state round.old self.old.merger round.new self.new.merger) }
        ensures err { OnErr result (PullsNothing round.old self.old.merger round.new self.new.merger) }
        ensures same { OnErr result (forgetting.new ≡ forgetting.old) }
    {
        forgetting.take(round, &mut self.merger, peer, delta)
    }

    /// Reads what is withdrawn before the first gate answers, and forgets it (`Forgetting::begin`). What is pending
    /// would be lost, so publish it first.
    pub fn begin<R, L, B>(
        &mut self,
        forgetting: &mut Forgetting,
        ways: &Ways<'_, R, L, B>,
    ) -> Result<Option<Forgot>, BeginFault>
    where
        R: Wait + Clock + Files + AllocGlobal,
        L: Write + Copy,
        B: NamesBase,
        requires { self.old.merger.pending ≡ [] }
        ensures some { IfOk result (λ it. IfSome it (λ _.
            ForgetsSome forgetting.new.withdrawn forgetting.new.listed self.old.merger self.new.merger)) }
        ensures read { OnOk result ((is_some forgetting.new.withdrawn && is_some forgetting.new.listed) ≡ true) }
        ensures gone { OnOk result (forgetting.old.withdrawn ≡ None
            → AreGone forgetting.new.withdrawn forgetting.new.listed self.new.merger) }
        ensures none { IfOk result (λ it. it ≡ None → self.new.merger ≡ self.old.merger) }
        ensures err { OnErr result (self.new.merger ≡ self.old.merger) }
    {
        forgetting.begin(ways, &mut self.merger)
    }

    /// Forgets at once what is withdrawn. What is pending would be lost, so publish it first. `None` if nothing of it
    /// is published.
    pub fn forget_withdrawn<R, L, B>(
        &mut self,
        forgetting: &mut Forgetting,
        ways: &Ways<'_, R, L, B>,
    ) -> Result<Option<Forgot>, NoMemory>
    where
        R: Wait + Clock + AllocGlobal,
        L: Write + Copy,
        B: NamesBase,
        requires { self.old.merger.pending ≡ [] }
        ensures some { IfOk result (λ it. IfSome it (λ _.
            ForgetsSome forgetting.old.withdrawn forgetting.old.listed self.old.merger self.new.merger)) }
        ensures gone { OnOk result (forgetting.old.is_new ≡ true
            → AreGone forgetting.old.withdrawn forgetting.old.listed self.new.merger) }
        ensures none { IfOk result (λ it. it ≡ None → self.new.merger ≡ self.old.merger) }
        ensures err { OnErr result (self.new.merger ≡ self.old.merger) }
    {
        forgetting.forget_withdrawn(ways, &mut self.merger)
    }

    /// Forgets what is known beyond what is wanted, where that is due. What is pending would be lost, so publish it
    /// first. `None` if it isn't due, or if no more is known.
    pub fn forget_oldest<R, L, B>(
        &mut self,
        forgetting: &mut Forgetting,
        ways: &Ways<'_, R, L, B>,
    ) -> Result<Option<Forgot>, NoMemory>
    where
        R: Wait + Clock + AllocGlobal,
        L: Write + Copy,
        B: NamesBase,
        requires { self.old.merger.pending ≡ [] }
        ensures some { IfOk result (λ it. IfSome it (λ _.
            ForgetsSome forgetting.old.withdrawn forgetting.old.listed self.old.merger self.new.merger)) }
        ensures due { IfOk result (λ it. IfSome it (λ _. (now : ℕ) × IsDue forgetting.old.due now)) }
        ensures none { IfOk result (λ it. it ≡ None → self.new.merger ≡ self.old.merger) }
        ensures err { OnErr result (self.new.merger ≡ self.old.merger) }
    {
        forgetting.tend(ways, &mut self.merger)
    }

    /// Ends the ledger: what is pending is lost, and gates answer `Closed`. It may wait for gates that are about to
    /// answer.
    pub fn close<R: Wait>(self, rt: &R) {
        let Ledger { merger, of: _ } = self;
        merger.close(rt);
    }
}
