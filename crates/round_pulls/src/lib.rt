//! Peers are pulled in the rounds of a service, and what they give is taken in.
//!
//! A peer is asked by `ask_peers`, beside the rounds, and `accept_pull` takes in what it gave. `pull_all` does both in
//! the thread of the rounds, one peer after the other. What is taken of a delta or of a part: what the rule of the
//! rounds keeps of it, where something is forgotten, and what isn't ahead of the clock.
//!
//! - `pulling`: peers are asked, and a delta that is given as a whole is taken in;
//! - `stepping`: the same of the parts of a delta, one after the other.
#![tactic(auto)]

mod pulling;
mod stepping;

pub use pulling::{accept_pull, ask_peers, pull_all};
