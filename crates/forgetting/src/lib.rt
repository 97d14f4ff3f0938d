//! What a service forgets, while its readers are answered.
//!
//! To forget is to begin anew with what is kept: a second merger is opened, what is kept is published by it, each
//! gate's thread is handed its gate, and the merger of before is closed. For a replica these are the events Restart and
//! Receive. What peers give is restricted by the same rule before it is taken in.
//!
//! - `bounds`: how much of unlisted originals may be known;
//! - `files` and `withdrawing`: the file that names what is never kept, and what it names;
//! - `standing`: what is kept from one forgetting to the next;
//! - `renewing`: a merger takes the place of another;
//! - `deciding`: what goes, and when;
//! - `laws`: what follows for readers;
//! - `taking`: what is taken of what peers give, and how much room a wish's harvest has.
#![tactic(auto)]

mod bounds;
mod deciding;
mod files;
mod laws;
mod renewing;
mod standing;
mod taking;
mod withdrawing;

pub use deciding::{BeginFault, Forgot, Ways};
pub use files::{FileFault, read_file};
pub use laws::{a_forgetting_is_unnoticed, what_begins_is_known};
pub use standing::Forgetting;
pub use taking::Sifted;
pub use withdrawing::check_withdrawn;
