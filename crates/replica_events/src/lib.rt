//! What can happen to replicas that exchange what they have taken, and what follows from it, without any program's
//! code: events and their outcomes, worlds of replicas and messages, histories, and the laws that hold for all of them.
//!
//! `replicas_agree` is the purpose of this crate: replicas that have learnt the same harvests give the same reply to
//! every request that asks for no delta. The laws hold for any program that shows which events it performs.
#![tactic(auto)]

mod agreement;
mod cursors;
mod event;
mod history;
mod incarnations;
mod refusals;

pub use agreement::{replicas_agree, replies_are_of_merges};
pub use cursors::{cursors_are_kept, what_cursors_are};
pub use event::{Event, EventAnswer, Refused, Said};
pub use history::{deliveries_in_any_order, what_replicas_have_taken};
pub use incarnations::incarnations_are_new;
pub use refusals::{one_outcome, refusals_have_causes};
