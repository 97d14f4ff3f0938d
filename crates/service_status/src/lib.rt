//! What an operator is told of a running service: its metrics in Prometheus' text format, and whether it shows
//! something.
//!
//! A `Status` is a plain struct of counts, and `write_status` writes it as metrics; the contract says which text that
//! is. A `StatusBoard` is a status behind a lock, which the thread of the rounds tells what happens, and a `StatusGate`
//! answers `/metrics` and `/health` by it. A `CountingGate` stands round a gate and counts its replies, for which it
//! takes no lock.
//!
//! In three groups:
//!
//! - what is kept: `status` (the counts), `beginning` (before anything has happened), `counts` (by how something
//!   ended), `board` (a status behind a lock) and `memory` (how much the process holds);
//! - what is replied: `gates` (of the status' address, and those whose replies are counted), `counters` (added to
//!   without a lock) and `replies`;
//! - what is written: `metrics` (which there are), `writing` (their samples) and `exposition` (the format).
//!
//! What follows from the definitions is in `laws`.
#![tactic(auto)]

mod beginning;
mod board;
mod counters;
mod counts;
mod exposition;
mod gates;
mod laws;
mod memory;
mod metrics;
mod replies;
mod status;
mod writing;

pub use board::StatusBoard;
pub use counters::ReplyCounter;
pub use counts::{EntryCounts, PullCounts, PullEnd, ReplyCounts, WalkCounts, WalkEnd, WishCounts};
pub use gates::{CountingGate, StatusGate};
pub use laws::{samples_are_read_back, series_are_told_once, texts_by_example};
pub use memory::resident_bytes;
pub use metrics::Metric;
pub use replies::reply_to;
pub use status::{
    ArchiveStatus, ForgettingStatus, GateStatus, KnownStatus, ListStatus, PeerStatus,
    PublishStatus, RoomStatus, RoundStatus, SnapshotStatus, Status,
};
pub use writing::write_status;
