//! Tests of `snapshot_sections` and `snapshots`: what their contracts say, on values from outside, and what they do to
//! files.
#![tactic(auto)]

#[cfg(test)]
mod files;
#[cfg(test)]
mod sections;
#[cfg(test)]
mod states;
#[cfg(test)]
mod uses;
