//! Tests of the crates that read and write texts, from `memento_time` up to `timemap_writer`: what their contracts
//! say, on values from outside. They call public functions alone, so that those crates are proved without them.
//!
//! `makers` makes what tests speak of, for those of the crates above too. `tables` reads cases, and `scripts` steps,
//! from texts.
//!
//! Of one crate each: `moments` (`memento_time`), `links` (`link_format`), `fields` (`text_fields`), `urls`
//! (`url_texts`), `pages` (`timemap_reader`) and `timemaps` (`timemap_writer`).
#![tactic(auto)]

#[cfg(test)]
mod fields;
#[cfg(test)]
mod links;
pub mod makers;
#[cfg(test)]
mod moments;
#[cfg(test)]
mod pages;
pub mod scripts;
pub mod tables;
#[cfg(test)]
mod timemaps;
#[cfg(test)]
mod urls;
