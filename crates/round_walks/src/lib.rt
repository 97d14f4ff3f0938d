//! What the walks of a service bring is taken in, in rounds and for wishes.
//!
//! `accept_report` takes in what a worker reports: a `Fate` says what becomes of a harvest. `walk_here` walks a job
//! without a worker. Wishes are granted by `grant_wishes`, their jobs handed out by `begin_wish_job`, and what is due
//! of them is done by `tend_wishes`.
//!
//! - `taking` takes in what workers report, and `fates` says what becomes of it;
//! - `granting` grants wishes, takes in what their walks brought, and ends them;
//! - `known` says what is published of an original, and which archives a wish doesn't ask.
#![tactic(auto)]

mod fates;
mod granting;
mod known;
mod taking;

pub use granting::{begin_wish_job, grant_wishes, tend_wishes};
pub use taking::{accept_report, walk_here};
