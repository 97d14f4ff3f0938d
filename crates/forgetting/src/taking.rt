//! What is taken of what peers give, and how much room a wish's harvest has.
ghost use Rattle.std.specs.Prelude.{◌≡◌, ◌⊎◌, ◌≤◌, ◌+◌, ◌-◌, ◌^◌, ◌↔◌, IfOk, IfSome, IsSomeAnd, IsTrue, None};
ghost use Rattle.std.specs.Prelude.{OnErr, OnOk, Ok, Some, false, is_some, length, min, option_map, true, unwrap_or};
ghost use Rattle.std.specs.FinMap as map;
ghost use Rattle.memento_sets.specs.Sets as set;
ghost use Rattle.original_sets.specs.Sets.{stands};
ghost use Rattle.replica_exchange.specs.CursorRule.{fits, taken_from};
ghost use Rattle.published_index.specs.declared.mergers.TakenAs.TheVariants.{News};
ghost use Rattle.round_values.specs.Pulls.{PullsNothing, PullsSome};
ghost use Rattle.forgetting.specs.Renewing.{HasRoom};
ghost use Rattle.forgetting.specs.Sifting.{Sifts, TakesAs};

use crate::bounds::most_of;
use crate::standing::Forgetting;
use harvest_lattice::{Entry, Harvest, State};
use memento_time::{ArchiveName, NoMemory, Original};
use original_sets::{Key, OriginalSet};
use published_index::{Merger, TakenAs};
use replica_exchange::{Cursors, Delta, TakeFault};
use retention::{Unlisted, amount_of_entry, unlisted_amount, young_originals};
use round_values::{Millis, Round};
use service_log::PeerFault;
use service_settings::Settings;
use service_status::EntryCounts;
use std::alloc::Global;
use std::hash::RandomState;

/// How many milliseconds lie at least between two counts of all mementos that wishes' harvests call for.
const COUNT: u64 = 1_000;

/// How many mementos an entry has, those of each revision, as far as 64 bits count.
fn mementos_in(entry: &Entry) -> u64 {
    match amount_of_entry(entry) {
        Ok(amount) => amount.mementos,
        Err(_) => u64::MAX,
    }
}

/// Whether something of an original is published, of this archive or of one of the settings.
fn is_known(
    settings: &Settings,
    merger: &Merger,
    archive: ArchiveName,
    original: &Original,
) -> bool {
    merger.published_entry(archive, original).is_some()
        || settings.archives.iter().any(|other| merger
            .published_entry(other.name, original)
            .is_some())
}

/// Adds those originals of a state of which something is published.
fn add_known(
    wanted: &mut OriginalSet,
    settings: &Settings,
    merger: &Merger,
    state: &State,
) -> Result<(), NoMemory> {
    for ((archive, original), _) in state.rows() {
        if is_known(settings, merger, archive, original) {
            let _ = wanted.insert(Key::new(original)?)?;
        }
    }
    Ok(())
}

/// Whether unlisted originals that nobody knows yet are taken of peers: unless these settings forget all of them.
fn takes_young(settings: &Settings) -> bool {
    settings.forgetting.every.is_none() || settings.wishing.wanted.is_some()
}

/// What a pull brought, and how much of it is kept.
#[derive(Drop)]
pub struct Sifted {
    pub delta: Delta,
    /// How many of its entries are kept, and how many aren't.
    pub entries: EntryCounts,
}

impl Forgetting {
    /// What the rule keeps of a peer's delta: of what isn't withdrawn, the originals that are listed, of which
    /// something is published here, and, unless all unlisted ones are forgotten, of which the delta has something that
    /// isn't before the floor.
    pub fn sift(
        &self,
        alloc: Global,
        settings: &Settings,
        keys: RandomState,
        merger: &Merger,
        delta: Delta,
    ) -> Result<Sifted, NoMemory>
        ensures kept { IfOk result (λ it. Sifts self.now.withdrawn self.now.listed delta.state it.delta.state) }
        ensures rest { IfOk result (λ it. it.delta ≡ record delta { state = it.delta.state }) }
    {
        let Delta {
            incarnation,
            start,
            end,
            state,
        } = delta;
        let mut wanted = if takes_young(settings) {
            young_originals(alloc, &state, self.floor, keys)?
        } else {
            OriginalSet::with_room(alloc, 0, keys)?
        };
        add_known(&mut wanted, settings, merger, &state)?;
        let kept = self.kept_of(alloc, &state, &wanted)?;
        let entries = EntryCounts {
            taken: kept.len() as u64,
            left: state.len().saturating_sub(kept.len()) as u64,
        };
        let delta = Delta {
            incarnation,
            start,
            end,
            state: kept,
        };
        Ok(Sifted { delta, entries })
    }

    /// Takes what is kept of a peer's delta, if it follows on the cursor that is held. If all of it was published, it
    /// isn't appended and doesn't count: the peer's cursor alone is moved.
    pub fn take(
        &mut self,
        round: &mut Round,
        merger: &mut Merger,
        peer: u64,
        delta: Delta,
    ) -> Result<TakenAs, PeerFault>
        ensures fits { OnOk result (fits (map.get self.old.cursors peer) delta ≡ true) }
        ensures cursors { OnOk result (self.new.cursors ≡ taken_from self.old.cursors peer delta) }
        ensures taken { IfOk result (λ taken. TakesAs taken delta.state round.old merger.old round.new merger.new) }
        ensures err { OnErr result (PullsNothing round.old merger.old round.new merger.new) }
        ensures same { OnErr result (self.new ≡ self.old) }
    {
        let moved = match self.moved(peer, &delta) {
            Ok(moved) => moved,
            Err(fault) => return Err(PeerFault::Take(fault)),
        };
        let Delta { state, .. } = delta;
        let taken = if state.le(merger.published_state()) {
            TakenAs::Known
        } else {
            self.append(round, merger, state)?
        };
        self.cursors = moved;
        Ok(taken)
    }

    /// Appends what is kept of a peer's delta, and counts its mementos.
    fn append(
        &mut self,
        round: &mut Round,
        merger: &mut Merger,
        state: State,
    ) -> Result<TakenAs, PeerFault>
        ensures news { IfOk result (λ taken. taken ≡ News) }
        ensures ok { OnOk result (PullsSome state round.old merger.old round.new merger.new) }
        ensures counted { OnOk result (self.new
            ≡ record self.old { pending = self.new.pending; mementos = self.new.mementos }) }
        ensures err { OnErr result (PullsNothing round.old merger.old round.new merger.new) }
        ensures same { OnErr result (self.new ≡ self.old) }
    {
        let more = self.unlisted_in(&state);
        let taken = round.take_some(merger, state)?;
        self.add_more(more);
        Ok(taken)
    }

    /// The cursors once this delta of a peer is taken, if it follows on the one that is held.
    fn moved(&self, peer: u64, delta: &Delta) -> Result<Cursors, TakeFault>
        ensures fits { OnOk result (fits (map.get self.now.cursors peer) delta.now ≡ true) }
        ensures moved { IfOk result (λ moved. moved ≡ taken_from self.now.cursors peer delta.now) }
    {
        let mut moved = self.cursors.try_clone()?;
        moved.take(peer, delta)?;
        Ok(moved)
    }

    /// Whether rounds look after an original. Where memory is refused, it isn't told that they do.
    fn is_listed(&self, original: &Original) -> bool
        ensures { result ≡ true → IsSomeAnd self.now.listed (λ listed. stands listed original.now ≡ true) }
    {
        match (&self.listed, Key::new(original)) {
            (Some(listed), Ok(key)) => listed.has(&key),
            _ => false,
        }
    }

    /// How many mementos the unlisted originals of a state have.
    fn unlisted_in(&self, state: &State) -> u64 {
        let mut more = 0u64;
        for ((_, original), entry) in state.rows() {
            if !self.is_listed(original) {
                more = more.saturating_add(mementos_in(entry));
            }
        }
        more
    }

    /// Counts the mementos of a state that is appended, which is some of a peer's delta.
    pub fn count_taken(&mut self, state: &State)
        ensures { self.new ≡ record self.old { pending = self.new.pending; mementos = self.new.mementos } }
    {
        let more = self.unlisted_in(state);
        self.add_more(more);
    }

    /// Counts so many mementos that were appended.
    fn add_more(&mut self, more: u64)
        ensures pending { self.new.pending ≡ min (self.old.pending + more) (2 ^ 64 - 1) }
        ensures mementos { self.new.mementos ≡ option_map (λ mementos. min (mementos + more) (2 ^ 64 - 1)) self.old.mementos }
        ensures rest { self.new ≡ record self.old { pending = self.new.pending; mementos = self.new.mementos } }
    {
        self.pending = self.pending.saturating_add(more);
        self.mementos = self.mementos.map(|mementos| mementos.saturating_add(more));
    }

    /// What was appended is published.
    pub fn note_publish(&mut self)
        ensures { self.new ≡ record self.old { pending = 0 } }
    {
        self.pending = 0;
    }

    /// Whether a wish's harvest fits: unlisted originals have no more mementos with it than may be. What fits is
    /// counted. Where the mementos were counted for long, they are counted anew before one is found not to fit.
    pub fn has_room(
        &mut self,
        settings: &Settings,
        merger: &Merger,
        harvest: &Harvest,
        now: Millis,
    ) -> bool
        ensures unbounded { settings.now.forgetting.every ≡ None → result ≡ true }
        ensures room { result ≡ true → is_some settings.now.forgetting.every ≡ true
            → IsSomeAnd self.old.listed (λ listed. stands listed harvest.now.original ≡ true)
            ⊎ IsSomeAnd self.new.mementos (λ mementos. mementos
            ≤ unwrap_or settings.now.forgetting.most (2 ^ 64 - 1)) }
        ensures full { result ≡ false → ¬ (HasRoom settings.now.forgetting.most self.new.mementos
            (length (set.items harvest.now.mementos))) }
        ensures same { settings.now.forgetting.every ≡ None → self.new ≡ self.old }
        ensures rest { self.new ≡ record self.old {
          counted = self.new.counted;
          mementos = self.new.mementos;
          pending = self.new.pending;
          missing = self.new.missing;
        } }
    {
        if settings.forgetting.every.is_none() || self.is_listed(harvest.original()) {
            return true;
        }
        let most = most_of(settings).mementos;
        let more = harvest.mementos().len() as u64;
        let is_old = self.mementos.is_none() || self.counted.after(COUNT).0 <= now.0;
        if !self.fits(more, most) && is_old {
            self.count(merger, now);
        }
        let fits = self.fits(more, most);
        if fits {
            self.add_more(more);
        } else if more <= most / 2 {
            // For one that is larger no room is made: most of what others asked for would go.
            self.missing = self.missing.max(more);
        }
        fits
    }

    /// Whether so many more mementos fit, as far as they are counted.
    fn fits(&self, more: u64, most: u64) -> bool
        ensures { IsTrue result ↔ HasRoom (Some most) self.now.mementos more }
    {
        match self.mementos {
            Some(mementos) => mementos.saturating_add(more) <= most,
            None => false,
        }
    }

    /// Counts the mementos of unlisted originals, published and pending. Where memory is refused, they aren't known.
    fn count(&mut self, merger: &Merger, now: Millis)
        ensures pending { IfSome self.new.mementos (λ mementos. self.old.pending ≤ mementos) }
        ensures counted { self.new.counted ≡ now }
        ensures rest { self.new ≡ record self.old { counted = self.new.counted; mementos = self.new.mementos } }
    {
        self.counted = now;
        self.mementos = match (&self.withdrawn, &self.listed) {
            (Some(withdrawn), Some(listed)) => {
                let unlisted = Unlisted { withdrawn, listed };
                match unlisted_amount(merger.published_state(), &unlisted) {
                    Ok(amount) => Some(amount.mementos.saturating_add(self.pending)),
                    Err(_) => None,
                }
            }
            _ => None,
        };
    }
}
