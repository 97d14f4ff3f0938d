//! Sets of mementos. The mementos that an archive has of an original are such a set, and so are those that are shown of
//! it.
//!
//! A `Mementos` is a list in order, with each memento once. Finding one of them takes time logarithmic in their number.
//! Taking in another set takes time in the number of mementos that come, and of those that stand after the first that
//! comes. Contracts see the finite set.
//!
//! `get_rising` and `contains_rising` look up an original in a map that takes in originals in their order.
//!
//! `specs/Sets.antt` defines finite sets, as finite maps that have nothing at each key. `specs/Maps.antt` defines what
//! two finite maps make value by value. Crates above use the same definitions for other sets and maps.
#![tactic(auto)]

mod laws;
mod lookup;
mod mementos;

pub use laws::one_list_of_a_set;
pub use lookup::{contains_rising, get_rising};
pub use mementos::{Mementos, are_same};
