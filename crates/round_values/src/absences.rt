//! Which archives were absent from a round, how long the service waits after it, and which archives it asks then.
ghost use Rattle.std.specs.Prelude.{◌≡◌, ◌↔◌, Contains, IfOk, IsSomeAnd, IsTrue, map, replicate, slice_get};
ghost use Rattle.round_values.specs.Absences.{Ends, Follows, IsAsked, noted, pause_ms, presence_at};
ghost use Rattle.round_values.specs.Desks.{IsNoted};
ghost use Rattle.round_values.specs.declared.absences.Presence.TheVariants.{Absent as IsAbsent, NotAsked as IsNotAsked};
ghost use Rattle.round_values.specs.declared.absences.Scope.TheVariants.{All as AsksAll};

use service_settings::{Asking, Settings};
use std::alloc::{AllocError, Global};

/// Which archives a round asks.
#[derive(Clone, Copy, Debug, PartialEq, Eq)]
pub(crate) enum Scope {
    All,
    /// Those alone that are absent.
    Absent,
}

/// How an archive stands in a round.
#[derive(Clone, Copy, Debug, PartialEq, Eq)]
pub(crate) enum Presence {
    /// The round doesn't ask it.
    NotAsked,
    /// None of its jobs was answered or passed over so far.
    Absent,
    /// One was.
    Present,
}

/// What follows a round.
#[derive(Clone, Copy, Debug, PartialEq, Eq)]
pub(crate) struct Next {
    /// For how many milliseconds the service waits.
    pub(crate) wait: u64,
    /// Which archives the round asks that comes then.
    pub(crate) scope: Scope,
}

/// Which archives are absent: a round asked them, and none of their jobs was answered, or needn't be walked. Absent
/// archives are asked again before the pause is over, and the others aren't.
#[derive(Debug, Drop)]
pub struct Absences {
    /// The archives, in the order of the settings.
    archives: Vec<Presence>,
    /// Which of them the round asks.
    scope: Scope,
    /// How many milliseconds are left of the pause after the last round that asked all.
    left: u64,
}

/// How many milliseconds the service waits between two rounds that ask all archives.
fn pause_of(settings: &Settings) -> u64
    ensures { result ≡ pause_ms settings.now }
{
    settings.pause.saturating_mul(1_000)
}

impl Presence {
    /// When a round begins that asks these archives for so many originals.
    fn at(self, scope: Scope, originals: usize) -> Presence
        ensures { result ≡ presence_at scope originals self }
    {
        match (scope, self) {
            _ if originals == 0 => Presence::NotAsked,
            (Scope::All, _) | (Scope::Absent, Presence::Absent) => Presence::Absent,
            (Scope::Absent, Presence::NotAsked | Presence::Present) => Presence::NotAsked,
        }
    }

    /// Once a job was answered or passed over.
    fn noted(self) -> Presence
        ensures { result ≡ noted self }
    {
        match self {
            Presence::NotAsked => Presence::NotAsked,
            Presence::Absent | Presence::Present => Presence::Present,
        }
    }
}

/// Begins a round that asks these archives for so many originals.
fn begin_all(archives: &mut [Presence], scope: Scope, originals: usize)
    ensures { archives.new ≡ map (presence_at scope originals) archives.old }
{
    for archive in archives.iter_mut() {
        *archive = archive.at(scope, originals);
    }
}

impl Absences {
    /// Before the first round, which asks so many archives.
    pub fn new(alloc: Global, archives: usize) -> Result<Absences, AllocError>
        ensures archives { IfOk result (λ it. it.archives.items ≡ replicate archives IsNotAsked) }
        ensures scope { IfOk result (λ it. it.scope ≡ AsksAll) }
        ensures left { IfOk result (λ it. it.left ≡ 0) }
    {
        Ok(Absences {
            archives: vec![in alloc; Presence::NotAsked; archives]?,
            scope: Scope::All,
            left: 0,
        })
    }

    /// A round begins, which looks after so many originals.
    pub fn begin(&mut self, originals: usize)
        ensures rest { self.new ≡ record self.old { archives = self.new.archives } }
        ensures archives { self.new.archives.items
            ≡ map (presence_at self.old.scope originals) self.old.archives.items }
    {
        begin_all(&mut self.archives, self.scope, originals);
    }

    /// Whether the round asks this archive.
    pub fn is_asked(&self, archive: usize) -> bool
        ensures { IsTrue result ↔ IsSomeAnd (slice_get self.now.archives.items archive) IsAsked }
    {
        match self.archives.get(archive) {
            Some(Presence::Absent | Presence::Present) => true,
            Some(Presence::NotAsked) | None => false,
        }
    }

    /// A job of this archive was answered, or needn't be walked.
    pub fn note_present(&mut self, archive: usize)
        ensures rest { self.new ≡ record self.old { archives = self.new.archives } }
        ensures archives { IsNoted archive noted self.old.archives.items self.new.archives.items }
    {
        if let Some(presence) = self.archives.get_mut(archive) {
            *presence = presence.noted();
        }
    }

    /// What follows a round after which so many milliseconds are left of the pause.
    fn next(&self, asking: Asking, left: u64) -> Next
        ensures { Follows asking left (Contains self.now.archives.items IsAbsent) result }
    {
        let dormant = asking.dormant.saturating_mul(1_000);
        if asking.tolerance.is_some()
            && dormant < left
            && self.archives.contains(&Presence::Absent)
        {
            Next {
                wait: dormant,
                scope: Scope::Absent,
            }
        } else {
            Next {
                wait: left,
                scope: Scope::All,
            }
        }
    }

    /// The round is over. Returns for how many milliseconds to wait before the next one.
    pub fn end(&mut self, settings: &Settings) -> u64
        ensures { Ends settings.now self.old result self.new }
    {
        let left = match self.scope {
            Scope::All => pause_of(settings),
            Scope::Absent => self.left,
        };
        let next = self.next(settings.asking, left);
        self.scope = next.scope;
        self.left = left.saturating_sub(next.wait);
        next.wait
    }
}
