//! Jobs that are handed to workers in threads of their own, and what they report.
//!
//! `WalkRules` names, for proofs alone, which job each errand has, and what may be fetched. An `Assignment` has the job
//! of its `Errand`, which is a turn of a round or a wish, and a `WalkReport` what may come of that very job. Both are
//! facts of their types, so that they hold of whatever a channel brings. An assignment uses up a schedule's leave to
//! ask its archive, so nothing is walked that no schedule allowed, and nothing twice.
#![tactic(auto)]

mod errands;
mod laws;
mod messages;
mod rules;
#[cfg(test)]
mod tests;
mod verdicts;
mod walking;

pub use errands::Errand;
pub use laws::{answers_are_no_failures, verdicts_by_example};
pub use messages::{Assignment, Opened, WalkReport};
pub use rules::{RuledFetch, WalkRules};
pub use verdicts::verdict_of;
pub use walking::walk_assignment;
