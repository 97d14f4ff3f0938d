//! What the rounds of a service know, and how they go on, without a thread.
//!
//! A `Course` has what is known and published (a `Ledger`), where the rounds stand (a `Standing`), and who tells an
//! operator of it. The crates above take in what walks and peers bring, and have the threads that walk and pull: they
//! ask the course what is to be done.
//!
//! - `course` has all of it, and makes the jobs that are handed out;
//! - `rounds` begins and ends a round, and `reading` reads the file of originals anew for it;
//! - `tending` does what is due meanwhile: it publishes, and writes snapshots;
//! - `dropping` has forgotten what is withdrawn, and what is known beyond what is wanted;
//! - `known` says which job a turn is of, and how young what is published of it is;
//! - `telling` tells an operator what a round left out.
#![tactic(auto)]

mod course;
mod dropping;
mod known;
mod reading;
mod rounds;
mod telling;
mod tending;

pub use course::{Course, TICK};
pub use known::is_young;
pub use rounds::EndedRound;
