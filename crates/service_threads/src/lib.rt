//! What runs beside the rounds of a service, in threads of its own: gates, walks and pulls.
//!
//! `Means` holds all that rounds are made with: the `Pool` of those that walk, the `Pullers`, and what the rounds share
//! with the gates that `open_listeners` opens (`Shared`). The thread of the rounds gives work by a channel and takes
//! the answers from another, and knows no more of these threads.
//!
//! In four groups:
//!
//! - what is asked for: `terms` (which jobs the settings ask for, and how these are walked) and `jobs` (of an archive
//!   for an original);
//! - threads: `gates` (those that answer), `pool` (those that walk) and `pulls` (those that ask peers);
//! - what they share: `means`, and in it `shared`, with `telling` (the status) and `slots` (where gates are handed
//!   over);
//! - `faults` (why serving ends early), and `laws` (what gates may reply).
#![tactic(auto)]

mod faults;
mod gates;
mod jobs;
mod laws;
mod means;
mod pool;
mod pulls;
mod shared;
mod slots;
mod telling;
mod terms;

pub use faults::ServeFault;
pub use gates::{Listeners, ServedGate, open_listeners};
pub use jobs::original_of;
pub use laws::{served_gates_go_on, served_gates_reply_so};
pub use means::Means;
pub use pool::{News, Pool};
pub use pulls::{PullAnswer, PullRequest, Pullers};
pub use shared::Shared;
pub use slots::forgets;
pub use telling::Telling;
pub use terms::Terms;
