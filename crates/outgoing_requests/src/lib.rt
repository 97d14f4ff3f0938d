//! Requests to archives and to peers over sockets, with `hyper` and `tokio`.
//!
//! Each is a GET over a connection of its own, to a listed host where hosts are listed, and its answer has to come in
//! time and within a length. No contract can say what crosses a socket, so that is tested.
//!
//! In four groups:
//!
//! - whom: `targets` (which target a URL names), `hosts` (which hosts are listed, and which addresses they lead to) and
//!   `agents` (how the program names itself);
//! - until when: `patience` (how long the other side is waited for), `limits` (of a walk and of a body's pace) and
//!   `waits` (for what comes, while the connection is driven);
//! - what: `exchanges` (one request and its answer), `bodies` (whose bytes are counted as they come), `fetching` (from
//!   archives) and `pulls` (from peers);
//! - `faults` (why a peer's delta isn't pulled) and `laws` (worked examples).
#![tactic(auto)]

mod agents;
mod bodies;
mod exchanges;
mod faults;
mod fetching;
mod hosts;
mod laws;
mod limits;
mod patience;
mod pulls;
mod targets;
mod waits;

pub use agents::Agent;
pub use faults::PullFault;
pub use fetching::{CarefulFetch, HyperFetch};
pub use hosts::{AllowedHost, allowed_addresses, is_allowed, is_listed, read_host};
pub use laws::{addresses_by_example, targets_by_example};
pub use limits::FetchLimits;
pub use patience::{DEFAULT_PATIENCE, Patience};
pub use pulls::{Pulled, pull_part, pull_state, pull_within};
