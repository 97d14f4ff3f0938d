//! What is noted of each peer: its pulls, how far its news were looked through, and how far its parts were taken.
ghost use Rattle.std.specs.Prelude.{◌≡◌, ◌↔◌, ◌<◌, ◌-◌, IsTrue, IsSome, IsSomeAnd, None, true, false};
ghost use Rattle.std.specs.Prelude.{is_some, map, option_copied};
ghost use Rattle.std.specs.Option.{option_map_or};
ghost use Rattle.std.specs.List.{list_any};
ghost use Rattle.round_standing.specs.Peers as spec;
ghost use Rattle.round_standing.specs.Peers.{IsNotedAt, noted_of};

use round_values::{Lead, Millis, Walking};
use std::alloc::{AllocError, Global};

/// How many parts of a peer's delta one pull takes, before what else is due comes first.
const MOST_PARTS: u64 = 1_000;

/// What is noted of the pull of a peer that began last, and of parts that others follow.
#[derive(Clone, Copy, Debug, PartialEq, Eq)]
struct PullNotes {
    /// When the pull began.
    begun: Millis,
    /// How many parts it brought, as far as 64 bits count.
    parts: u64,
    /// Whether it brought news.
    has_news: bool,
    /// Whether the peer has to be asked for something else by now, so that its answer isn't taken.
    is_stale: bool,
    /// When the last part came, if others follow it.
    stepped: Option<Millis>,
}

impl PullNotes {
    /// Before the first pull.
    const NONE: PullNotes = PullNotes {
        begun: Millis(0),
        parts: 0,
        has_news: false,
        is_stale: false,
        stepped: None,
    };

    /// A pull begins. Parts that are to come from the pull before still are.
    fn begin(&mut self, now: Millis)
        ensures { self.new ≡ spec.begun_at now self.old }
    {
        *self = PullNotes {
            begun: now,
            stepped: self.stepped,
            ..PullNotes::NONE
        };
    }

    /// A part was taken, which others follow or not.
    fn add_part(&mut self, now: Millis, is_followed: bool)
        ensures { self.new ≡ spec.with_part now is_followed self.old }
    {
        self.parts = self.parts.saturating_add(1);
        self.stepped = if is_followed { Some(now) } else { None };
    }

    /// A delta was given as a whole, so that no part is to come.
    fn end_parts(&mut self)
        ensures { self.new ≡ record self.old { stepped = None } }
    {
        self.stepped = None;
    }

    /// Whether the pull asks for a further part: for a thousand at most, and for less than so many milliseconds, so
    /// that no peer holds a round up with parts without end.
    fn goes_on(&self, now: Millis, most: u64) -> bool
        ensures { IsTrue result ↔ (self.now.parts < 1000) × (now.0 - self.now.begun.0 < most) }
    {
        self.parts < MOST_PARTS && now.since(self.begun) < most
    }

    /// Whether parts are to come, of which the last came less than so many milliseconds ago.
    fn is_unfinished(&self, now: Millis, most: u64) -> bool
        ensures { result ≡ spec.is_unfinished now most self.now }
    {
        match self.stepped {
            Some(stepped) => now.since(stepped) < most,
            None => false,
        }
    }
}

/// What is noted of a peer.
#[derive(Drop)]
struct PeerNotes {
    /// Whether it is being pulled.
    is_pulled: bool,
    pull: PullNotes,
    /// How far its news were looked through beyond the cursor that is held.
    lead: Option<Lead>,
    /// How far the parts of its delta were taken, if some of them were and others follow.
    walking: Option<Walking>,
}

impl PeerNotes {
    /// Before the first pull.
    const NONE: PeerNotes = PeerNotes {
        is_pulled: false,
        pull: PullNotes::NONE,
        lead: None,
        walking: None,
    };

    /// All that the peer has is asked for anew. What it is being asked for isn't taken.
    fn drop_lead(&mut self)
        ensures { self.new ≡ spec.without_lead self.old }
    {
        self.pull.is_stale = self.is_pulled;
        self.lead = None;
        self.walking = None;
    }
}

/// The place of the peer with this number.
fn place_of(peer: u64) -> Option<usize>
    ensures { result ≡ spec.place_of peer }
{
    usize::try_from(peer).ok()?.checked_sub(1)
}

/// What is noted of each peer, in the order of the settings. A peer's number is its place there, counted from 1;
/// nothing is noted of a number that no peer has.
#[derive(Drop)]
pub struct Peers {
    all: Vec<PeerNotes>,
}

impl Peers {
    /// So many peers, of which none was pulled.
    pub(crate) fn new(alloc: Global, count: usize) -> Result<Peers, AllocError> {
        let mut all = Vec::with_capacity(alloc, count)?;
        for _ in 0..count {
            all.push(PeerNotes::NONE)?;
        }
        Ok(Peers { all })
    }

    fn notes(&self, peer: u64) -> Option<&PeerNotes>
        ensures { option_copied result ≡ noted_of self.now.all.items peer }
    {
        self.all.get(place_of(peer)?)
    }

    /// Whether a peer is being pulled. A peer that there isn't counts as such.
    pub fn is_pulled(&self, peer: u64) -> bool
        ensures { result ≡ option_map_or (λ notes. notes.is_pulled) (noted_of self.now.all.items peer) true }
    {
        match self.notes(peer) {
            Some(notes) => notes.is_pulled,
            None => true,
        }
    }

    /// Notes whether a peer is being pulled.
    pub fn set_pulled(&mut self, peer: u64, is_pulled: bool)
        ensures { IsNotedAt peer (λ notes. record notes { is_pulled = is_pulled })
            self.old.all.items self.new.all.items }
    {
        let Some(place) = place_of(peer) else {
            return;
        };
        if let Some(notes) = self.all.get_mut(place) {
            notes.is_pulled = is_pulled;
        }
    }

    /// Whether some peer is being pulled.
    pub fn are_pulled(&self) -> bool
        ensures { result ≡ list_any (λ notes. notes.is_pulled) self.now.all.items }
    {
        self.all.iter().any(|notes| notes.is_pulled)
    }

    /// How far a peer's news were looked through beyond the cursor that is held.
    pub fn lead(&self, peer: u64) -> Option<Lead>
        ensures { result ≡ option_map_or (λ notes. notes.lead) (noted_of self.now.all.items peer) None }
    {
        self.notes(peer)?.lead
    }

    /// Notes how far a peer's news were looked through beyond the cursor that is held.
    pub fn set_lead(&mut self, peer: u64, lead: Option<Lead>)
        ensures { IsNotedAt peer (λ notes. record notes { lead = lead }) self.old.all.items self.new.all.items }
    {
        let Some(place) = place_of(peer) else {
            return;
        };
        if let Some(notes) = self.all.get_mut(place) {
            notes.lead = lead;
        }
    }

    /// How far the parts of a peer's delta were taken.
    pub fn walking(&self, peer: u64) -> Option<&Walking>
        ensures { option_copied result
            ≡ option_map_or (λ notes. notes.walking) (noted_of self.now.all.items peer) None }
    {
        self.notes(peer)?.walking.as_ref()
    }

    /// Notes how far the parts of a peer's delta were taken.
    pub fn set_walking(&mut self, peer: u64, walking: Option<Walking>)
        ensures { IsNotedAt peer (λ notes. record notes { walking = walking }) self.old.all.items self.new.all.items }
    {
        let Some(place) = place_of(peer) else {
            return;
        };
        if let Some(notes) = self.all.get_mut(place) {
            notes.walking = walking;
        }
    }

    /// A pull of a peer begins.
    pub fn begin_pull(&mut self, peer: u64, now: Millis)
        ensures { IsNotedAt peer (λ notes. record notes { pull = spec.begun_at now notes.pull })
            self.old.all.items self.new.all.items }
    {
        let Some(place) = place_of(peer) else {
            return;
        };
        if let Some(notes) = self.all.get_mut(place) {
            notes.pull.begin(now);
        }
    }

    /// Notes that a part of a peer's delta was taken.
    pub fn note_part(&mut self, peer: u64, now: Millis)
        ensures { IsNotedAt peer
            (λ notes. record notes { pull = spec.with_part now (is_some notes.walking) notes.pull })
            self.old.all.items self.new.all.items }
    {
        let Some(place) = place_of(peer) else {
            return;
        };
        if let Some(notes) = self.all.get_mut(place) {
            let is_followed = notes.walking.is_some();
            notes.pull.add_part(now, is_followed);
        }
    }

    /// Notes that a peer gave a delta as a whole.
    pub fn note_whole(&mut self, peer: u64)
        ensures { IsNotedAt peer (λ notes. record notes { walking = None; pull = record notes.pull { stepped = None } })
            self.old.all.items self.new.all.items }
    {
        let Some(place) = place_of(peer) else {
            return;
        };
        if let Some(notes) = self.all.get_mut(place) {
            notes.walking = None;
            notes.pull.end_parts();
        }
    }

    /// Notes that a peer's pull brought news.
    pub fn note_news(&mut self, peer: u64)
        ensures { IsNotedAt peer (λ notes. record notes { pull = record notes.pull { has_news = true } })
            self.old.all.items self.new.all.items }
    {
        let Some(place) = place_of(peer) else {
            return;
        };
        if let Some(notes) = self.all.get_mut(place) {
            notes.pull.has_news = true;
        }
    }

    /// Whether a peer's pull brought news.
    pub fn has_news(&self, peer: u64) -> bool
        ensures { result ≡ option_map_or (λ notes. notes.pull.has_news) (noted_of self.now.all.items peer) false }
    {
        match self.notes(peer) {
            Some(notes) => notes.pull.has_news,
            None => false,
        }
    }

    /// Whether a peer has to be asked for something else than it was asked for.
    pub fn is_stale(&self, peer: u64) -> bool
        ensures { result ≡ option_map_or (λ notes. notes.pull.is_stale) (noted_of self.now.all.items peer) false }
    {
        match self.notes(peer) {
            Some(notes) => notes.pull.is_stale,
            None => false,
        }
    }

    /// Whether the next part of a peer's delta is asked for at once, in a pull of less than so many milliseconds.
    pub fn steps_on(&self, peer: u64, now: Millis, most: u64) -> bool
        ensures { IsTrue result ↔ IsSomeAnd (noted_of self.now.all.items peer) (λ notes. IsSome notes.walking
            × (notes.pull.parts < 1000) × (now.0 - notes.pull.begun.0 < most)) }
    {
        match self.notes(peer) {
            Some(notes) => notes.walking.is_some() && notes.pull.goes_on(now, most),
            None => false,
        }
    }

    /// Whether parts of some peer's delta are to come, of which the last came less than so many milliseconds ago.
    pub fn are_unfinished(&self, now: Millis, most: u64) -> bool
        ensures { result ≡ list_any (λ notes. spec.is_unfinished now most notes.pull) self.now.all.items }
    {
        let all = &self.all;
        all.iter().any(|notes| notes.pull.is_unfinished(now, most))
    }

    /// All that peers have is asked for anew. What peers are being asked for isn't taken.
    pub fn drop_leads(&mut self)
        ensures { self.new.all.items ≡ map spec.without_lead self.old.all.items }
    {
        for notes in self.all.iter_mut() {
            notes.drop_lead();
        }
    }
}
