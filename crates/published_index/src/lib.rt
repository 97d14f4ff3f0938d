//! One merger publishes batches of merges, and up to `MOST_GATES` gates answer from what is published, without waiting.
//!
//! `open` makes both. What a gate has seen never goes back, and a gate that learnt the receipt of a publish serves each
//! of its merges from then on.
//!
//! In four groups:
//!
//! - calls: `openings` (a merger and its gates), `mergers` (which publish), `gates` (which answer), `receipts` (by
//!   which a gate learns of a publish) and `faults`;
//! - what is published: `editions` (two copies that take turns) and `marks` (the log of publishes, and how much of it
//!   was seen);
//! - why it is right: `rules` (what the copies keep, step by step), `views` (what the rule knows about each reader
//!   and about the writer), `asking` (a reader's step) and `writing` (the writer's);
//! - laws: `laws` (of one gate's calls, and of the replies of two) and `pairs` (gates of two replicas).
//!
//! `crates/service_tests/src/uses.rt` publishes a harvest and asks a gate for it.
#![tactic(auto)]

mod asking;
mod editions;
mod faults;
mod gates;
mod laws;
mod marks;
mod mergers;
mod openings;
mod pairs;
mod receipts;
mod rules;
mod views;
mod writing;

pub use faults::{GateFault, OpenFault, PublishRefused};
pub use gates::Gate;
pub use laws::{
    a_publish_adds_its_batch, a_publish_is_events, an_entry_is_an_ask, answers_never_go_back,
    deltas_follow_each_other, each_merge_is_published_once, exchanges_have_a_last_merge,
    held_cursors_are_reached, same_state_same_reply, walks_are_reached, what_is_learnt_is_served,
};
pub use mergers::{Merger, TakenAs};
pub use openings::{MOST_GATES, open};
pub use pairs::ask_both;
pub use receipts::Receipt;
