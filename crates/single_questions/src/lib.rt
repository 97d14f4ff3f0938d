//! Questions that are asked once, without a service: of an original, its TimeMap or the memento nearest to a datetime.
//!
//! A `Question` keeps what the archives' walks gave for one original. Its contract says that this is the state of
//! harvests each of which came of a walk of that very original, so what is answered is the TimeMap of what these
//! harvests show. In which order walks end makes no difference (`order_makes_no_difference`).
//!
//! - `questions` (one original, and which archives have answered) and `outcomes` (what the answers come to);
//! - `wants` (what is asked), `answers` (the text that is answered), `listings` (a TimeMap for JSON and CDXJ) and
//!   `datetimes` (fourteen digits);
//! - `failings` (why an archive's mementos are missing, in words).
//!
//! Nothing here waits or has threads.
#![tactic(auto)]

mod answers;
mod datetimes;
mod failings;
mod laws;
mod listings;
mod outcomes;
mod questions;
mod wants;

pub use answers::write_answer;
pub use datetimes::read_digits;
pub use failings::{Failing, FailingLine, failing_of};
pub use laws::{digits_are_read, order_makes_no_difference, worst_outcomes};
pub use outcomes::Outcome;
pub use questions::Question;
pub use wants::{TextForm, Want};
