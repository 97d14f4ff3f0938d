//! A service by its settings: serves what they ask for.
//!
//! `serve_settings` opens the gates in threads of their own, and makes rounds in the caller's thread: it walks each
//! archive for each original, pulls from each peer, and publishes what came to the gates. The program above this crate
//! reads the file of the settings and says how a fault ends.
//!
//! What the rounds know, and how they go on, is in `round_course`, and the threads beside them are in
//! `service_threads`. Here is the thread of the rounds itself, `Rounds`, which brings both together:
//!
//! - `serving` opens all, and makes one round after the other; `beginning` does before what is due before the first
//!   gate answers;
//! - `making` makes a round: it hands out its jobs, and waits between two rounds;
//! - `granting` hands out the walks of wishes, which go before the jobs of a round;
//! - `taking` waits for what workers report, and `pulling` for what peers give;
//! - `tending` does what is due meanwhile.
#![tactic(auto)]

mod beginning;
mod granting;
mod making;
mod pulling;
mod serving;
mod taking;
mod tending;

pub use round_standing::check_list;
pub use serving::serve_settings;
