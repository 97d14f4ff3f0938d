//! Tests of the crates that publish, harvest and fetch, and of those of settings and the log, by their public calls
//! alone: that calls succeed, what threads do beside one another, and what crosses a socket, where no contract reaches.
//! What the whole service does is tried by programs, in `tests/rounds` and `tests/settings` at the repository's top.
//!
//! The crates that it tries have no tests of their own, so each of them is proved without.
//!
//! `publishing` is of mergers and gates, and `edge` of what crosses a socket. Walks are tried over archives that
//! `archives` makes: `harvesting` which pages are fetched and lost, `limits` how many pages and mementos may come,
//! `patience` for how long archives ask to be left alone, and `paged` what another aggregator answers of a long list.
//! `settings` and `log` are of the crates `service_settings` and `service_log`. `uses` shows in a few lines how
//! `published_index` is used.
#![tactic(auto)]

#[cfg(test)]
mod archives;
#[cfg(test)]
mod edge;
#[cfg(test)]
mod harvesting;
#[cfg(test)]
mod limits;
#[cfg(test)]
mod log;
#[cfg(test)]
mod paged;
#[cfg(test)]
mod patience;
#[cfg(test)]
mod publishing;
#[cfg(test)]
mod settings;
#[cfg(test)]
mod uses;
