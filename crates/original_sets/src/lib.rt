//! Sets of originals, and originals as keys of hash tables.
#![tactic(auto)]

mod keys;
mod sets;

pub use keys::Key;
pub use sets::OriginalSet;
