//! Gates that note what their readers ask for, for the thread that hands out walks.
//!
//! A `WishingGate` gives the replies of the gate inside, and its type allows no others. No contract says what is noted,
//! since all gates share one book behind a lock; what a book takes is stated by `wish_list`.
#![tactic(auto)]

mod book;
mod gates;
mod laws;
mod requests;

pub use book::WishBook;
pub use gates::WishingGate;
pub use laws::absent_where_nothing_is_shown;
pub use requests::{asked_original, wished_at};
