//! Tests of wishes, and of the lists of originals: `wish_list`, `original_sets`, `original_list`, `wishing_gates`, and
//! `round_values` as far as it keeps wishes.
//!
//! What stands behind the lock of a book of wishes is in no contract. That a gate notes there what its readers ask for
//! is tried here.
#![tactic(auto)]

#[cfg(test)]
mod books;
#[cfg(test)]
mod desks;
#[cfg(test)]
mod jobs;
#[cfg(test)]
mod lists;
#[cfg(test)]
mod queues;
#[cfg(test)]
mod uses;
#[cfg(test)]
mod wishes;
