//! HTTP over sockets, in both directions, by one name.
//!
//! `gate_server` serves gates, and `outgoing_requests` asks archives and peers. Neither calls the other, so each is
//! proved beside the other. This crate has no code of its own: it gives the calls of both to who serves and asks.
#![tactic(auto)]

pub use gate_server::{
    Answers, Bound, EdgeFault, FormFault, GateService, Readiness, ReadyGate, RespondFault, bind,
    form, gates_answer_as_replicas, request_of, serve_gate, serve_together,
};
pub use outgoing_requests::{HyperFetch, PullFault, pull_state};
