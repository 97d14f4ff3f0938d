//! What a service knows, and by what it came to know it.
//!
//! A `Ledger` holds the merger of a service. It takes nothing but what a service may take: the harvest of a walk of a
//! job of its settings, and what an answer of a peer brought. It publishes, and forgets by the service's rule. So
//! whatever it ever publishes has a source (`what_is_known_was_given`), whichever of its calls are made, and in
//! whichever order.
//!
//! - `rules`: with what the merger of a service begins;
//! - `ledgers`: the calls;
//! - `laws`: what follows of all that is known.
#![tactic(auto)]

mod laws;
mod ledgers;
mod rules;

pub use laws::what_is_known_was_given;
pub use ledgers::Ledger;
pub use rules::Begins;
