//! What goes, and when.
ghost use Rattle.std.specs.Prelude.{◌≡◌, ◌⊎◌, ◌&&◌, ◌+◌, ◌-◌, ◌/◌, ◌^◌, ◌≤◌, [], IfOk, IfSome, IsErrOf, None, OnErr, OnOk};
ghost use Rattle.std.specs.Prelude.{ℕ, false, is_some, min, true};
ghost use Rattle.std.specs.FinMap as map;
ghost use Rattle.retention.specs.Restriction.{restrict};
ghost use Rattle.round_values.specs.Dues.{IsDue};
ghost use Rattle.forgetting.specs.Renewing.{AreGone, ForgetsSome, HasNone, IsBegun, known, rule_of};

use crate::bounds::most_of;
use crate::renewing::{begin, replace};
use crate::standing::Forgetting;
use harvest_lattice::State;
use memento_time::NoMemory;
use original_sets::OriginalSet;
use part_gates::{NamesBase, PartGate};
use published_index::Merger;
use retention::{
    Amount, Remainder, Retention, Unlisted, Withdrawn, restricted, unlisted_amount, without_oldest,
    young_originals,
};
use round_values::{Log, Millis, Stopwatch, incarnation_now};
use service_log::Forgotten;
use service_settings::Settings;
use std::alloc::{AllocGlobal, Global};
use std::hash::RandomState;
use std::io::Write;
use std::rt::Files;
use std::sync::Wait;
use std::time::Clock;
use switching_gates::GateSlot;

/// By what something is forgotten.
#[derive(Drop)]
pub struct Ways<'a, R, L: Copy, B: NamesBase> {
    pub rt: &'a R,
    pub settings: &'a Settings,
    pub keys: RandomState,
    /// Where each gate's thread is handed another gate.
    pub slots: &'a [GateSlot<PartGate<B>>],
    pub watch: Stopwatch,
    pub log: Log<L>,
    /// The gates that are handed over name the settings' base, as those before them.
    pub ghost named: { settings.now.base ≡ B.base },
}

/// What a forgetting came to.
#[derive(Clone, Copy, Debug, PartialEq, Eq)]
pub struct Forgot {
    pub entries: u64,
    pub kept: u64,
}

impl Forgot {
    /// What the log is told of it, where it took so many milliseconds.
    pub fn told(self, milliseconds: u64) -> Forgotten
        ensures entries { result.entries ≡ self.entries }
        ensures kept { result.kept.0 ≡ self.kept }
        ensures took { result.took.0 ≡ milliseconds }
    {
        Forgotten::of(self.entries, self.kept, milliseconds)
    }
}

/// Whether a state has something that is withdrawn. Where memory is refused, it may.
fn has_withdrawn(state: &State, withdrawn: &Withdrawn) -> bool
    ensures { result ≡ false → HasNone withdrawn.now state.now }
{
    for ((archive, original), _) in state.rows() {
        if withdrawn.has(archive, original).unwrap_or(true) {
            return true;
        }
    }
    false
}

impl<R: Wait + Clock + AllocGlobal, L: Write + Copy, B: NamesBase> Ways<'_, R, L, B> {
    fn alloc(&self) -> Global {
        self.rt.alloc()
    }

    fn now(&self) -> Millis {
        self.watch.now(self.rt)
    }
}

/// How much stays where something is forgotten: nine tenths of what may be known, and no more than leaves room for so
/// many mementos.
fn most_kept(most: Amount, missing: u64) -> Amount
    ensures entries { result.entries ≡ most.entries - most.entries / 10 }
    ensures mementos { result.mementos ≡ min (most.mementos - most.mementos / 10) (most.mementos - missing) }
{
    let kept = most.tenth_less();
    Amount {
        entries: kept.entries,
        mementos: kept.mementos.min(most.mementos.saturating_sub(missing)),
    }
}

/// Why a service that forgets can't begin.
#[derive(Clone, Copy, Debug, PartialEq, Eq)]
pub enum BeginFault {
    /// What is withdrawn can't be read.
    Unread,
    NoMemory,
}

impl Forgetting {
    /// Reads what is withdrawn before the first gate answers, and forgets it. Where it can't be read, nothing is to be
    /// shown. What is pending would be lost, so publish it first. Returns what was forgotten.
    pub fn begin<R, L, B>(
        &mut self,
        ways: &Ways<'_, R, L, B>,
        merger: &mut Merger,
    ) -> Result<Option<Forgot>, BeginFault>
    where
        R: Wait + Clock + Files + AllocGlobal,
        L: Write + Copy,
        B: NamesBase,
        requires { merger.old.pending ≡ [] }
        ensures some { IfOk result (λ it. IfSome it (λ _.
            ForgetsSome self.new.withdrawn self.new.listed merger.old merger.new)) }
        ensures none { IfOk result (λ it. it ≡ None → merger.new ≡ merger.old) }
        ensures read { OnOk result ((is_some self.new.withdrawn && is_some self.new.listed) ≡ true) }
        ensures gone { OnOk result (self.old.withdrawn ≡ None → AreGone self.new.withdrawn self.new.listed merger.new) }
        ensures unread { IsErrOf result BeginFault.Unread → (self.new.withdrawn ≡ None) ⊎ (self.new.listed ≡ None) }
        ensures err { OnErr result (merger.new ≡ merger.old) }
    {
        let list = &ways.settings.originals;
        let _ = self.take_rule(ways.rt, ways.settings, ways.keys, list, ways.log);
        if !self.knows_rule() {
            return Err(BeginFault::Unread);
        }
        match self.forget_withdrawn(ways, merger) {
            Ok(forgot) => Ok(forgot),
            Err(_) => Err(BeginFault::NoMemory),
        }
    }

    /// Forgets at once what is withdrawn. What is pending would be lost, so publish it first. `None` if nothing of it
    /// is published.
    #[tactic(auto, using(crate::proofs::RenewingLemmas::some_forgotten))]
    pub fn forget_withdrawn<R, L, B>(
        &mut self,
        ways: &Ways<'_, R, L, B>,
        merger: &mut Merger,
    ) -> Result<Option<Forgot>, NoMemory>
    where
        R: Wait + Clock + AllocGlobal,
        L: Write + Copy,
        B: NamesBase,
        requires { merger.old.pending ≡ [] }
        ensures some { IfOk result (λ it. IfSome it (λ _.
            ForgetsSome self.old.withdrawn self.old.listed merger.old merger.new)) }
        ensures none { IfOk result (λ it. it ≡ None → merger.new ≡ merger.old) }
        ensures err { OnErr result (merger.new ≡ merger.old) }
        ensures gone { OnOk result (self.old.is_new ≡ true → AreGone self.old.withdrawn self.old.listed merger.new) }
        ensures rule { (self.new.withdrawn ≡ self.old.withdrawn) × (self.new.listed ≡ self.old.listed) }
    {
        let state = merger.published_state();
        let Some(withdrawn) = &self.withdrawn else {
            return Ok(None);
        };
        if !self.is_new || !has_withdrawn(state, withdrawn) {
            self.is_new = false;
            return Ok(None);
        }
        let wanted = young_originals(ways.alloc(), state, 0, ways.keys)?;
        let kept = self.kept_of(ways.alloc(), state, &wanted)?;
        drop(wanted);
        let forgot = self.forget(ways, merger, kept, self.floor)?;
        self.is_new = false;
        Ok(forgot)
    }

    /// Whether more is known than is wanted, as far as that is seen without going over all that is known.
    fn may_be_due(&self, settings: &Settings, merger: &Merger) -> bool
        ensures { result ≡ false → self.now.missing ≡ 0 }
    {
        let most = most_of(settings);
        let few = match self.mementos {
            Some(mementos) => mementos <= most.mementos,
            None => false,
        };
        self.missing > 0 || !few || most.entries < merger.published_state().len() as u64
    }

    /// Forgets what is known beyond what is wanted, where that is due. What is pending would be lost, so publish it
    /// first. `None` if it isn't due, or if no more is known.
    pub fn tend<R, L, B>(
        &mut self,
        ways: &Ways<'_, R, L, B>,
        merger: &mut Merger,
    ) -> Result<Option<Forgot>, NoMemory>
    where
        R: Wait + Clock + AllocGlobal,
        L: Write + Copy,
        B: NamesBase,
        requires { merger.old.pending ≡ [] }
        ensures some { IfOk result (λ it. IfSome it (λ _.
            ForgetsSome self.old.withdrawn self.old.listed merger.old merger.new)) }
        ensures none { IfOk result (λ it. it ≡ None → merger.new ≡ merger.old) }
        ensures err { OnErr result (merger.new ≡ merger.old) }
        ensures missing { IfOk result (λ it. IfSome it (λ _. self.new.missing ≡ 0)) }
        ensures due { IfOk result (λ it. IfSome it (λ _. (now : ℕ) × IsDue self.old.due now)) }
    {
        if !self.due.is_due(ways.now()) || !self.may_be_due(ways.settings, &*merger) {
            return Ok(None);
        }
        let rest = self.remainder(ways, &*merger);
        self.due.done(ways.now());
        match rest? {
            Some(rest) => {
                let Remainder { state, floor, .. } = rest;
                let forgot = self.forget(ways, merger, state, floor)?;
                self.missing = 0;
                Ok(forgot)
            }
            None => Ok(None),
        }
    }

    /// What stays of what is published, if more is known than is wanted.
    fn remainder<R, L, B>(
        &mut self,
        ways: &Ways<'_, R, L, B>,
        merger: &Merger,
    ) -> Result<Option<Remainder>, NoMemory>
    where
        R: Wait + Clock + AllocGlobal,
        L: Write + Copy,
        B: NamesBase,
        ensures { IfOk result (λ it. IfSome it (λ rest. rest.state
            ≡ restrict (rule_of self.old.withdrawn self.old.listed rest.wanted) (known merger.now))) }
    {
        let (Some(withdrawn), Some(listed)) = (&self.withdrawn, &self.listed) else {
            return Ok(None);
        };
        let unlisted = Unlisted { withdrawn, listed };
        let state = merger.published_state();
        let most = most_of(ways.settings);
        let amount = unlisted_amount(state, &unlisted)?;
        if amount.fits(most) && self.missing == 0 {
            self.mementos = Some(amount.mementos);
            return Ok(None);
        }
        let rest = without_oldest(
            ways.alloc(),
            state,
            &unlisted,
            self.floor,
            most_kept(most, self.missing),
            ways.keys,
        )?;
        Ok(Some(rest))
    }

    /// What the rule keeps of a state, where these unlisted originals are wanted. Without a rule that is all.
    pub(crate) fn kept_of(
        &self,
        alloc: Global,
        state: &State,
        wanted: &OriginalSet,
    ) -> Result<State, NoMemory>
        ensures { IfOk result (λ kept. kept
            ≡ restrict (rule_of self.now.withdrawn self.now.listed wanted.now) state.now) }
    {
        let Some(withdrawn) = &self.withdrawn else {
            return state.try_clone();
        };
        let Some(listed) = &self.listed else {
            return state.try_clone();
        };
        let rule = Retention {
            withdrawn,
            listed,
            wanted,
        };
        restricted(alloc, state, &rule)
    }

    /// Begins anew with what stays. If memory is refused, everything stays as it was. `None` if all of it stays.
    fn forget<R, L, B>(
        &mut self,
        ways: &Ways<'_, R, L, B>,
        merger: &mut Merger,
        state: State,
        floor: u64,
    ) -> Result<Option<Forgot>, NoMemory>
    where
        R: Wait + Clock + AllocGlobal,
        L: Write + Copy,
        B: NamesBase,
        ensures some { IfOk result (λ it. IfSome it (λ _. IsBegun state merger.new)) }
        ensures none { IfOk result (λ it. it ≡ None → merger.new ≡ merger.old) }
        ensures all { IfOk result (λ it. it ≡ None → map.len state ≡ map.len (known merger.old)) }
        ensures err { OnErr result (merger.new ≡ merger.old) }
        ensures same { OnErr result (self.new ≡ self.old) }
        ensures stays { IfOk result (λ it. it ≡ None → self.new ≡ self.old) }
        ensures newer { IfOk result (λ it. IfSome it (λ _.
            min (self.old.incarnation + 1) (2 ^ 64 - 1) ≤ self.new.incarnation)) }
        ensures floor { IfOk result (λ it. IfSome it (λ _. self.new.floor ≡ floor)) }
        ensures rule { (self.new.withdrawn ≡ self.old.withdrawn) × (self.new.listed ≡ self.old.listed) }
    {
        let before = merger.published_state().len();
        let after = state.len();
        if after == before {
            return Ok(None);
        }
        let incarnation = incarnation_now(ways.rt).max(self.incarnation.saturating_add(1));
        let (fresh, gates) = begin(ways.rt, ways.alloc(), ways.settings, incarnation, state)?;
        replace(ways.rt, ways.slots, merger, fresh, gates);
        self.floor = floor;
        self.incarnation = incarnation;
        self.mementos = None;
        Ok(Some(Forgot {
            entries: before.saturating_sub(after) as u64,
            kept: after as u64,
        }))
    }
}
