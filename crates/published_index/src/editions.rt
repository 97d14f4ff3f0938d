//! The two copies of what is published, and the changes to them.
ghost use Rattle.std.specs.Prelude.{◌≡◌};
ghost use Rattle.published_index.specs.Stamping.{nothing_merged};

use crate::marks::Mark;
use left_right::Absorb;
use memento_index::Merge;
use replica_exchange::Stamped;
use std::alloc::{AllocError, Global};

/// A change that the merger's log holds for the copies: the merges of a batch, followed by the mark that the batch
/// reaches. A merge stands apart, so that the room that the log keeps takes two words a change.
#[derive(Drop)]
pub enum Change {
    Add(Box<Merge>),
    Reach(Mark),
}

const _: () = prove!(size_of::<Change>() == 16);

/// One copy: an index with its stamps, and the mark of the last attempt that is in it.
#[derive(Drop)]
pub struct Edition {
    pub stamped: Stamped,
    pub mark: Mark,
}

impl Edition {
    pub fn new(alloc: Global, incarnation: u64, mark: &Mark) -> Edition
        ensures { result ≡ record { stamped = nothing_merged incarnation; mark = mark.now } }
    {
        Edition {
            stamped: Stamped::new(alloc, incarnation),
            mark: mark.copy(),
        }
    }
}

impl Absorb<Change> for Edition {
    ghost use Rattle.published_index.specs.Changes.{after_change};

    type State = Edition;

    ghost state = { λ edition. edition };

    ghost applied = { after_change };

    fn absorb_first(&mut self, operation: &Change, other: &Edition) -> Result<(), AllocError> {
        match operation {
            Change::Add(merge) => match self.stamped.absorb_beside(merge, &other.stamped) {
                Ok(()) => Ok(()),
                Err(_) => Err(AllocError),
            },
            Change::Reach(mark) => {
                self.mark = mark.copy();
                Ok(())
            }
        }
    }
}
