//! A Memento aggregator of several replicas in one memory. Replicas take harvests, send each other what they have
//! taken, restart, and answer requests.
//!
//! `World` runs the events of `replica_events`, so the laws there hold for it: replicas that have learnt the same
//! harvests give the same replies, except for deltas. `replay` runs a script of commands on a world, and writes their
//! output.
#![tactic(auto)]

mod asked;
mod message;
mod read_back;
mod replaying;
mod replica;
mod world;

pub use asked::{Asked, Question, asked_after};
pub use read_back::{paged_timemaps_are_pages, timemaps_are_pages};
pub use replaying::fault::ReplayFault;
pub use replaying::laws::{
    one_output, same_text_from_both, script_is_its_layout, scripts_are_runs,
};
pub use replaying::run::replay;
pub use replaying::watched::Watched;
pub use replica_events::{
    Event, EventAnswer, Refused, Said, cursors_are_kept, deliveries_in_any_order,
    incarnations_are_new, one_outcome, refusals_have_causes, replicas_agree, replies_are_of_merges,
    what_cursors_are, what_replicas_have_taken,
};
pub use world::World;
