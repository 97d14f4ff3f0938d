//! Lists of originals: those of a file, one a line, and those that a round looks after; which entry of settings is
//! none; the other spellings of an original; and what a file withdraws.
#![tactic(auto)]

mod entries;
mod lists;
mod rows;
mod spellings;
mod withdrawals;

pub use entries::bad_entry;
pub use lists::{each_once, each_stands_once};
pub use rows::{Listed, MOST_TOLD, Row, a_mark_changes_nothing, read_list, row_of};
pub use spellings::{spellings_are_alike, spellings_come_back, spellings_of};
pub use withdrawals::{
    MOST_WITHDRAWN, Withdrawal, Withdrawals, WithdrawnFault, read_withdrawn, withdrawal_of,
};
