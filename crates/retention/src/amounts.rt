//! How much is known: entries, and mementos in them.
ghost use Rattle.std.specs.Prelude.{◌≡◌, ◌+◌, ◌-◌, ◌/◌, ◌↔◌, IfOk, IfSome, IsTrue};
ghost use Rattle.retention.specs.Amounts.{FitsIn, count, mementos, size};

use harvest_lattice::{Entry, State};
use memento_time::NoMemory;

/// How many entries are known, and how many mementos they have, each counted in every revision.
#[derive(Clone, Copy)]
pub struct Amount {
    pub entries: u64,
    pub mementos: u64,
}

impl Amount {
    /// Nothing is known.
    pub const NONE: Amount = Amount {
        entries: 0,
        mementos: 0,
    };

    /// Whether it is no more than this, in entries and in mementos.
    pub fn fits(self, most: Amount) -> bool
        ensures { IsTrue result ↔ FitsIn self most }
    {
        self.entries <= most.entries && self.mementos <= most.mementos
    }

    /// Both together. `None` only if no 64-bit number counts it.
    pub fn plus(self, other: Amount) -> Option<Amount>
        ensures entries { IfSome result (λ both. both.entries ≡ self.entries + other.entries) }
        ensures mementos { IfSome result (λ both. both.mementos ≡ self.mementos + other.mementos) }
    {
        let entries = self.entries.checked_add(other.entries)?;
        let mementos = self.mementos.checked_add(other.mementos)?;
        Some(Amount { entries, mementos })
    }

    /// What is left of this if the other is taken from it. `None` if the other is more, in entries or in mementos.
    pub fn minus(self, other: Amount) -> Option<Amount>
        ensures entries { IfSome result (λ left. left.entries + other.entries ≡ self.entries) }
        ensures mementos { IfSome result (λ left. left.mementos + other.mementos ≡ self.mementos) }
    {
        let entries = self.entries.checked_sub(other.entries)?;
        let mementos = self.mementos.checked_sub(other.mementos)?;
        Some(Amount { entries, mementos })
    }

    /// Nine tenths of it, rounded up.
    pub fn tenth_less(self) -> Amount
        ensures entries { result.entries ≡ self.entries - self.entries / 10 }
        ensures mementos { result.mementos ≡ self.mementos - self.mementos / 10 }
    {
        Amount {
            entries: self.entries - self.entries / 10,
            mementos: self.mementos - self.mementos / 10,
        }
    }
}

/// So many more. `NoMemory` only if no 64-bit number counts them.
fn grown(count: u64, more: usize) -> Result<u64, NoMemory>
    ensures { IfOk result (λ sum. sum ≡ count + more) }
{
    match count.checked_add(more as u64) {
        Some(sum) => Ok(sum),
        None => Err(NoMemory),
    }
}

/// How many mementos an entry has, counted in every revision.
#[tactic(auto, using(crate::proofs::AmountLemmas::sizes_at))]
fn size_of_entry(entry: &Entry) -> Result<u64, NoMemory>
    ensures { IfOk result (λ count. count ≡ size entry.now) }
{
    let mut count = 0u64;
    for k in 0..entry.revisions() {
        count = grown(count, entry.mementos(k).len())?;
    }
    Ok(count)
}

/// One entry, and its mementos. `NoMemory` only if no 64-bit number counts them.
pub fn amount_of_entry(entry: &Entry) -> Result<Amount, NoMemory>
    ensures entries { IfOk result (λ one. one.entries ≡ 1) }
    ensures mementos { IfOk result (λ one. one.mementos ≡ size entry.now) }
{
    let mementos = size_of_entry(entry)?;
    Ok(Amount {
        entries: 1,
        mementos,
    })
}

/// The same, added to what was counted before.
pub(crate) fn grown_by(all: Amount, entry: &Entry) -> Result<Amount, NoMemory>
    ensures entries { IfOk result (λ both. both.entries ≡ all.entries + 1) }
    ensures mementos { IfOk result (λ both. both.mementos ≡ all.mementos + size entry.now) }
{
    let one = amount_of_entry(entry)?;
    match all.plus(one) {
        Some(both) => Ok(both),
        None => Err(NoMemory),
    }
}

/// How much a state has. Takes time in the number of its entries and revisions. `NoMemory` only if no 64-bit number
/// counts it.
pub fn amount_of(state: &State) -> Result<Amount, NoMemory>
    ensures entries { IfOk result (λ all. all.entries ≡ count state.now) }
    ensures mementos { IfOk result (λ all. all.mementos ≡ mementos state.now) }
{
    let mut all = Amount::NONE;
    for row in state.rows() {
        let (_, entry) = row;
        all = grown_by(all, entry)?;
    }
    Ok(all)
}
