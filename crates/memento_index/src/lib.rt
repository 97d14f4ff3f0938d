//! The index: a state of the lattice, with the list of each original kept ready.
//!
//! An `Index` takes in harvests and states. For each original, it has the mementos that are shown, the one nearest to a
//! moment, and the last one.
//!
//! In four groups:
//!
//! - the index: `index` (the state with its lists), `merge` (what it takes in) and `lists` (all its lists, by
//!   original);
//! - one list: `listing` (an original's list), `tally` (mementos with the number of archives that show each),
//!   `counted` (one step of such a number), `counts` (all steps of a merge) and `wear` (when a list is packed anew);
//! - what a merge changes: `replacement` (an entry that comes in an older one's place), `steps` (what it begins and
//!   ceases to show) and `gather` (the steps of a whole merge);
//! - what is asked: `nearest` and `last`, both by binary search over `probed`, which counts what is looked at.
//!
//! What follows from the definitions is in `laws`.
#![tactic(auto)]

mod counted;
mod counts;
mod gather;
mod index;
mod last;
mod laws;
mod listing;
mod lists;
mod merge;
mod nearest;
mod probed;
mod replacement;
mod steps;
mod tally;
mod wear;

pub use index::Index;
pub use last::last_in;
pub use laws::{archives_count_once, distances_are_between, one_is_last, one_is_nearest};
pub use merge::Merge;
pub use nearest::nearest_in;
pub use probed::Probed;
