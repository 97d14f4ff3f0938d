//! The fields of a text's lines, which end at a space or an LF, and decimals of 64-bit numbers.
//!
//! `split_once` splits a text at the first occurrence of a byte; `next_field` splits at a space and `next_line` at an
//! LF; `behind` gives what follows a front. `read_decimal` reads exactly what `write_decimal` writes: the decimals of
//! the numbers below 2^64, without a sign and with no zero in front of another digit. `leading_decimal` reads one at
//! the front of a text.
#![tactic(auto)]

mod decimals;
mod laws;
mod parts;

pub use decimals::{leading_decimal, read_decimal, write_decimal};
pub use laws::{decimals_are_read_back, fronts_are_cut, parts_are_read_back};
pub use parts::{behind, next_field, next_line, split_once};
