//! What an index takes in.
ghost use Rattle.std.specs.Prelude.{◌≡◌, IfOk};
ghost use Rattle.harvest_lattice.specs.Knowledge.{lat};
ghost use Rattle.harvest_lattice.specs.News.{IsNews};

use harvest_lattice::{Changes, Harvest, State};
use memento_time::NoMemory;

/// What an index takes in: a harvest, or everything that another replica's state has.
#[derive(Debug, Drop)]
pub enum Merge {
    Harvest(Harvest),
    State(State),
}

impl Merge {
    ghost use Rattle.memento_index.specs.Merges.{adds_of};

    /// A copy.
    pub fn try_clone(&self) -> Result<Merge, NoMemory>
        ensures { IfOk result (λ copy. copy ≡ self.now) }
    {
        match self {
            Merge::Harvest(harvest) => {
                let copy = harvest.try_clone()?;
                Ok(Merge::Harvest(copy))
            }
            Merge::State(state) => {
                let copy = state.try_clone()?;
                Ok(Merge::State(copy))
            }
        }
    }

    /// A copy. Where it has the mementos of the last revision that a state keeps of the same archive and original, it
    /// shares the state's list.
    pub fn shared_with(&self, state: &State) -> Result<Merge, NoMemory>
        ensures { IfOk result (λ copy. copy ≡ self.now) }
    {
        match self {
            Merge::Harvest(harvest) => {
                let copy = state.share_harvest(harvest)?;
                Ok(Merge::Harvest(copy))
            }
            Merge::State(other) => {
                let copy = state.share_state(other)?;
                Ok(Merge::State(copy))
            }
        }
    }

    /// What of this is news to a state.
    pub(crate) fn changes(&self, state: &State) -> Result<Changes, NoMemory>
        ensures { IfOk result (IsNews state.now (lat (adds_of self.now))) }
    {
        match self {
            Merge::Harvest(harvest) => state.changes_by(harvest),
            Merge::State(other) => state.changes(other),
        }
    }
}
