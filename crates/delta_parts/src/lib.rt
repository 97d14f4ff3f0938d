//! Deltas in parts, for states whose text is too long to be sent as one text.
//!
//! ```text
//! memento-part 1
//! behind ARCHIVE ORIGINAL
//! until ARCHIVE ORIGINAL
//! memento-delta 2
//! from INCARNATION START END
//! entries N
//! ..
//! end
//! ```
//!
//! A part has the entries that the merges after the first START changed, up to the first END, as far as their keys come
//! behind one place and not behind another. `behind -` is before the first key, and `until -` behind the last one: no
//! part follows. From the third line on it is a delta's text.
//!
//! A receiver asks for one part after the other. Its walk says from where on, of how many merges it tells once the last
//! part came (the least END of its parts), and up to which place it has come. What changes meanwhile has a stamp above
//! that number, and comes in a later delta.
//!
//! In four groups:
//!
//! - what is sent: `place` (between two entries), `part` and `asks` (which part is asked for, and where it stands);
//! - texts: `lines` (of as many entries as fit), `writing` and `reading`;
//! - what a receiver makes of parts: `walk` and `rule` (which parts go on with a walk, and what it comes to);
//! - `laws`.
#![tactic(auto)]

mod asks;
mod laws;
mod lines;
mod part;
mod place;
mod reading;
mod rule;
mod walk;
mod writing;

pub use asks::{PartAsk, read_target, write_target};
pub use laws::{
    cursors_are_reached, one_text_of_a_part, parts_stand_at_their_targets, parts_suffice,
    walks_are_kept,
};
pub use part::Part;
pub use place::Place;
pub use reading::read_part;
pub use rule::{fits_part, goes_on, walk_after, walk_end};
pub use walk::Walk;
pub use writing::write_part;
