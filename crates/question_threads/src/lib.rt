//! Asks archives for originals, once, without a service.
//!
//! `ask_one` asks for one original, and `ask_list` for those of a list, of which several are out at the same time.
//! Walks run in threads of their own, as far as the keys `workers` and `walks` go, and each archive is asked as the
//! settings say: no more walks of it run at once, nor sooner one after the other, and an archive that failed too often
//! or asked for patience is left alone.
//!
//! What is written to standard output are answers, each the text of what harvests show that came of walks for the
//! original, and after an error a beginning of one more.
//!
//! - `asking` (what is asked, and the two questions) and `desks` (the thread that hands out walks, takes in what comes
//!   and writes answers);
//! - `queue` (the questions that aren't answered yet) and `writing` (how a text is written);
//! - `terms` (which jobs the settings ask for, and how these are walked) and `pool` (the threads that walk);
//! - `lists` (the thread that reads a list) and `telling` (what is said on standard error);
//! - `clocks` and `faults`.
#![tactic(auto)]

mod asking;
mod clocks;
mod desks;
mod faults;
mod lists;
mod pool;
mod queue;
mod telling;
mod terms;
mod writing;

pub use asking::{Ended, ask_list, ask_one};
pub use faults::AskFault;
pub use telling::Teller;
