//! How far a peer's merges are known.
ghost use Rattle.std.specs.Prelude.{◌≡◌, true, OnOk, OnErr, IfOk, IfErr, Some};
ghost use Rattle.std.specs.FinMap as map;
ghost use Rattle.replica_exchange.specs.CursorRule as rule;

use crate::delta::Delta;
use memento_time::NoMemory;
use std::alloc::Global;
use std::collections::BTreeMap;
use std::error::Error;
use std::fmt;
use std::marker::Model;

/// The first `number` merges of a peer's incarnation are known.
#[derive(Clone, Copy, Debug, PartialEq, Eq)]
pub struct Cursor {
    pub incarnation: u64,
    pub number: u64,
}

/// Why a delta isn't accepted.
#[derive(Clone, Copy, Debug, PartialEq, Eq)]
pub enum TakeFault {
    /// The delta leaves out merges that aren't known yet. `held` is how far the peer's merges are known.
    Gap { held: Option<Cursor> },
    /// The allocator refused a growth.
    NoMemory,
}

impl fmt::Display for TakeFault {
    ghost output = { λ fault. Some (rule.words_of fault) };

    fn fmt<W: fmt::Write>(&self, f: &mut fmt::Formatter<W>) -> fmt::Result {
        match self {
            TakeFault::Gap { .. } => f.write_str("merges are left out"),
            TakeFault::NoMemory => f.write_str("no memory"),
        }
    }
}

impl Error for TakeFault {}

impl From<NoMemory> for TakeFault {
    ghost use Rattle.replica_exchange.specs.declared.cursor.TakeFault.TheVariants.{NoMemory as OutOfMemory};

    ghost from_gives = { λ _ fault. fault ≡ OutOfMemory };

    fn from(_refused: NoMemory) -> TakeFault {
        TakeFault::NoMemory
    }
}

/// Whether a cursor has a delta's incarnation, and isn't before the delta's start.
fn reaches(held: Option<Cursor>, delta: &Delta) -> bool
    ensures { result ≡ rule.reaches held delta.now }
{
    match held {
        Some(cursor) => cursor.incarnation == delta.incarnation && delta.start <= cursor.number,
        None => false,
    }
}

/// The cursor once a delta is taken.
fn moved(held: Option<Cursor>, delta: &Delta) -> Cursor
    ensures { result ≡ rule.cursor_after held delta.now }
{
    let end = Cursor {
        incarnation: delta.incarnation,
        number: delta.end,
    };
    match held {
        Some(cursor) if cursor.incarnation == delta.incarnation && delta.end < cursor.number => {
            cursor
        }
        _ => end,
    }
}

/// How far the merges of each peer are known.
#[derive(Debug, Drop)]
pub struct Cursors {
    alloc: Global,
    known: BTreeMap<u64, Cursor>,
}

impl Model for Cursors {
    ghost use Rattle.std.specs.FinMap as map;
    ghost use Rattle.std.specs.Coded.{coded_ℕ};
    ghost use Rattle.replica_exchange.specs.CursorRule.{Held, coded_cursor};

    ghost Value = { Held };

    ghost coded = { map.code coded_ℕ coded_cursor };

    ghost view = { λ c. map.from_entries c.known.entries };
}

impl Cursors {
    /// No cursor of any peer. Takes no memory.
    pub fn new(alloc: Global) -> Cursors
        ensures { result ≡ map.empty }
    {
        Cursors {
            alloc,
            known: BTreeMap::new(alloc),
        }
    }

    /// A copy.
    pub fn try_clone(&self) -> Result<Cursors, NoMemory>
        ensures { IfOk result (λ copy. copy ≡ self.now) }
    {
        let known = self.known.clone()?;
        Ok(Cursors {
            alloc: self.alloc,
            known,
        })
    }

    /// The cursor that is held for a peer.
    pub fn held(&self, peer: u64) -> Option<Cursor>
        ensures { result ≡ map.get self.now peer }
    {
        self.known.get(&peer).copied()
    }

    /// Whether a delta of the peer starts at the beginning, or no later than where its known merges end.
    pub fn fits(&self, peer: u64, delta: &Delta) -> bool
        ensures { result ≡ rule.fits (map.get self.now peer) delta.now }
    {
        delta.start == 0 || reaches(self.held(peer), delta)
    }

    /// Moves the peer's cursor to the end of its delta, which the caller joins. A cursor that is already further stays.
    pub fn take(&mut self, peer: u64, delta: &Delta) -> Result<(), TakeFault>
        ensures fits { OnOk result (rule.fits (map.get self.old peer) delta.now ≡ true) }
        ensures taken { OnOk result (self.new ≡ rule.taken_from self.old peer delta.now) }
        ensures cause { IfErr result (λ fault. rule.IsTakeCause fault (map.get self.old peer) delta.now) }
        ensures err { OnErr result (self.new ≡ self.old) }
    {
        if !self.fits(peer, delta) {
            let held = self.held(peer);
            return Err(TakeFault::Gap { held });
        }
        self.advance(peer, delta)?;
        Ok(())
    }

    /// Moves the peer's cursor as `take` does, for a delta that `fits` has accepted.
    pub fn advance(&mut self, peer: u64, delta: &Delta) -> Result<(), NoMemory>
        requires { rule.fits (map.get self.old peer) delta.now ≡ true }
        ensures taken { OnOk result (self.new ≡ rule.taken_from self.old peer delta.now) }
        ensures err { OnErr result (self.new ≡ self.old) }
    {
        let held = self.held(peer);
        self.known.insert(peer, moved(held, delta))?;
        Ok(())
    }
}
