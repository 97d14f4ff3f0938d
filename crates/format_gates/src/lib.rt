//! Gates that also answer with TimeMaps in JSON and CDXJ.
//!
//! A `FormGate` asks the gate inside for the TimeMap in link-format, and writes what that lists in the form. To every
//! other request it gives the reply of the gate inside.
//!
//! What follows from the definitions is in `laws`.
#![tactic(auto)]

mod gates;
mod laws;
mod naming;

pub use gates::FormGate;
pub use laws::{forms_agree, texts_list_once};
pub use naming::NamesForms;
pub use timemap_formats::Forms;
