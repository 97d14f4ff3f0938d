//! Where the rounds of a service stand, and what an operator is told of them.
//!
//! A service makes rounds. From one to the next it keeps a `Standing`: the schedule, what is noted of each archive and
//! of each peer, the originals that rounds look after, and the wishes that were granted. A `Console` tells an operator
//! what happens. Who walks and pulls, and what is known, is left to the crates above.
//!
//! - `standing`: all that is kept from one round to the next;
//! - `peers`: what is noted of each peer's pulls, in it; `paces`: the schedule that it begins with;
//! - `listing`: the originals that rounds look after, and what is written of the file that lists them;
//! - `bounds`: what the book of wishes is told of them, and of how many more may be wished for;
//! - `console`: lines of the log, and the status.
#![tactic(auto)]

mod bounds;
mod console;
mod listing;
mod paces;
mod peers;
mod standing;

pub use bounds::{book_listed, book_room};
pub use console::{Console, WalkShown};
pub use listing::{Originals, check_list};
pub use peers::Peers;
pub use standing::{Standing, tells_more};
