//! Gates that also answer with parts of deltas, where the settings ask for that.
//!
//! A peer asks for `/part..` (`delta_parts::write_target`). Each other request, and each request where no room for
//! parts is given, gets the reply of the gate inside.
#![tactic(auto)]

mod bases;
mod gates;
mod laws;

pub use bases::NamesBase;
pub use gates::{PartGate, part_gates};
pub use laws::parts_are_of_their_base;
