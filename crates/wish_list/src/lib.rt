//! What readers wish for: originals that they asked for, which are to be walked next.
//!
//! `Wishes` is shared by the threads of all gates and by the thread that hands out walks. It takes a wish only within
//! its limits: none twice, none that was looked after a short time ago, few in a minute, and few in all.
//!
//! In two groups:
//!
//! - taking wishes: `wishes` (the types), `asked` (what may be wished for), `deciding` (what becomes of a wish),
//!   `allowance` (how many in a minute), `queue` (those that stand) and `table` (when originals were looked after);
//! - granted wishes: `jobs` (which archives are asked) and `stages` (how far each is).
//!
//! What holds of all wishes is in `laws`. `crates/wish_tests/src/uses.rt` follows one wish from a question to its end.
#![tactic(auto)]

mod allowance;
mod asked;
mod deciding;
mod jobs;
mod laws;
mod queue;
mod stages;
mod table;
mod wishes;

pub use asked::AskedOriginal;
pub use deciding::RETRY;
pub use jobs::{Ask, Ended, Granted, WishJobs};
pub use laws::{archives_are_asked_once, wishes_are_few_in_a_minute, wishes_by_example};
pub use queue::{MOST_WISHES, Queue, Wish};
pub use stages::{Outcome, Stage, Stages, WishAnswer};
pub use wishes::{Decision, Found, WishLimits, Wishes};
