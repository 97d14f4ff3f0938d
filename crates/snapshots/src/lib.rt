//! Keeps a state in a file, and reads it again.
//!
//! A snapshot is the texts of several states, one behind the other (`snapshot_sections`). Each is short enough to be
//! read as a text of its own, and together they are the state (`parts_are_the_state`): the join of what is read is what
//! was written (`a_snapshot_is_read_back`). The state is cut while it is written, so that at most one section's text
//! takes memory.
//!
//! `crates/snapshot_tests/src/uses.rt` writes a state and reads it back.
#![tactic(auto)]

mod faults;
mod files;
mod laws;
mod reading;
mod writing;

pub use faults::{ReadFault, WriteFault};
pub use files::{keep_snapshot, set_aside, take_snapshot};
pub use laws::{a_snapshot_is_read_back, parts_are_the_state, taking_in_is_joining};
pub use reading::read_snapshot;
pub use writing::write_snapshot;
