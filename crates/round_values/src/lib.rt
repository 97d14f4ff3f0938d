//! What rounds keep and decide by, as values: no thread is started here, and nothing is sent between threads.
//!
//! A service makes rounds: it walks each archive for each original, pulls from each peer, and publishes what came. This
//! crate says what is due, what is young enough, what is noted, and what is kept. The crates above say who does the
//! work.
//!
//! In five groups:
//!
//! - time: `times` (seconds and milliseconds by type), `clocks` (the second, and the incarnation), `dues` (what is due
//!   when), `freshness` (which jobs needn't be walked) and `ahead` (which harvests aren't taken, since they are ahead
//!   of the clock);
//! - a round: `rounds` (what one comes to), `revisions` (which revision a walk has), `absences` (which archives were
//!   absent, and what follows then), `leads` (from where peers are asked), `steps` (how far the parts of a peer's delta
//!   were taken), `ordering` (in which order originals are gone over) and `keeping` (the file of what is known);
//! - wishes: `desks` (those that were granted, and how far they are) and `wished` (what the walk of one says);
//! - what is told: `logs` (where the log goes), `notes` and `reasons` (how walks ended, for it), and, for the status,
//!   `ends` (how walks and pulls ended) and `known` (how much is known);
//! - `laws`: what readers of the definitions may want to know of them.
#![tactic(auto)]

mod absences;
mod ahead;
mod clocks;
mod desks;
mod dues;
mod ends;
mod freshness;
mod keeping;
mod known;
mod laws;
mod leads;
mod logs;
mod notes;
mod ordering;
mod reasons;
mod revisions;
mod rounds;
mod steps;
mod times;
mod wished;

pub use absences::Absences;
pub use ahead::{Timely, is_ahead, last_taken, take_timely, what_is_taken};
pub use clocks::{incarnation_now, second_now};
pub use desks::{Desk, WishJob};
pub use dues::{Due, Dues, Stopwatch};
pub use ends::{pull_end, walk_end};
pub use freshness::{has_mementos, is_fresh};
pub use keeping::{Keeping, PublishEnd};
pub use known::known_in;
pub use laws::{
    later_walks_win, pauses_are_whole, pauses_by_example, revisions_by_example, waits_by_example,
    youth_by_example,
};
pub use leads::{Lead, asked_from, follows, led_by};
pub use logs::Log;
pub use notes::Notes;
pub use ordering::shuffle;
pub use revisions::revision_of;
pub use rounds::Round;
pub use steps::{Stepped, Walking, next_ask, step};
pub use times::{Millis, Second};
pub use wished::{
    DEFAULT_AGAIN, answer_to, is_kept, is_left_alone, is_waited_for, room_left, wish_timing,
};
