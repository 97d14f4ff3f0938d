//! Tests of the crates that keep and tell what replicas know, from `memento_sets` up to `timegate`, and of `retention`:
//! what their contracts say, on values from outside. They call public functions alone, so that those crates are proved
//! without them.
//!
//! `makers` makes what tests speak of, for those of the crates above too.
//!
//! Of one crate each: `sets`, `lattice`, `index`, `exchange`, `gate` and `forgetting`. `walks` tries the index and the
//! states below it on whatever they take, by the plain `rule` of what is listed; its mementos come from `captures`.
#![tactic(auto)]

#[cfg(test)]
mod captures;
#[cfg(test)]
mod exchange;
#[cfg(test)]
mod forgetting;
#[cfg(test)]
mod gate;
#[cfg(test)]
mod index;
#[cfg(test)]
mod lattice;
pub mod makers;
#[cfg(test)]
mod rule;
#[cfg(test)]
mod sets;
#[cfg(test)]
mod walks;
