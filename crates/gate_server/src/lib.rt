//! Gates over sockets, with `hyper` and `tokio`.
//!
//! HTTP/1.1 carries what a gate answers: `GateService::respond` gives the form of a reply that the gate's type allows
//! for the request, and nothing else. No contract can say what crosses a socket, so that is tested.
//!
//! In three groups:
//!
//! - what a gate says: `answers` (behind a lock), `readiness` (a gate that waits until it is told to answer) and `laws`
//!   (what holds for all gates);
//! - one request: `services` (what connections call), `requests` (what is asked), `responses` (what goes out) and
//!   `holding` (how many requests wait for their reply, and for how long);
//! - sockets: `binding` (those that take connections), `serving` (a socket's connections, one after the other),
//!   `crowds` (several of them at once), `timers` (the clock) and `faults` (why a gate isn't served, and why a reply
//!   isn't given).
//!
//! The other direction is the crate `outgoing_requests`. `hyper_edge` has the names of both.
#![tactic(auto)]

mod answers;
mod binding;
mod crowds;
mod faults;
mod holding;
mod laws;
mod readiness;
mod requests;
mod responses;
mod services;
mod serving;
mod timers;

pub use answers::Answers;
pub use binding::{Bound, bind};
pub use crowds::serve_together;
pub use faults::{EdgeFault, FormFault, RespondFault};
pub use laws::gates_answer_as_replicas;
pub use readiness::{Readiness, ReadyGate};
pub use requests::request_of;
pub use responses::form;
pub use services::GateService;
pub use serving::serve_gate;
