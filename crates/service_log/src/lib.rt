//! What a service tells in its log: lines about what went wrong.
//!
//! A `Line` says what happened, and is shown as its words: each type that is part of a line is shown, and its contract
//! says which text that is. `write_line` writes one behind `log: `.
//!
//! In four parts: `lines` (which there are, and their words), `counts` (how many walks of an archive ended in which
//! way), `forgotten` (what is forgotten and withdrawn) and `writing` (how one is written).
#![tactic(auto)]

mod counts;
mod forgotten;
mod lines;
mod writing;

pub use counts::Counts;
pub use forgotten::{Forgotten, KeptEntries, Took, WithdrawnMatter};
pub use lines::{
    Cause, Dormancy, GateEnd, Greeting, JobsLeft, Line, ListMatter, Matter, PartFault, PeerFault,
    Progress, Reason, Respite, SnapshotEnd, Want, WishCounts, name_text,
};
pub use writing::write_line;
