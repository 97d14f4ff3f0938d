//! A replica's knowledge as one exact text, which it hands to its peers. Each state is written as exactly one text, and
//! no other text is read as this state except that of an older format.
//!
//! Every state and delta is written in format 2. It has these lines, each ended by LF, with nothing after the last one
//! and one space between fields:
//!
//! ```text
//! memento-state 2
//! entries N
//! entry ARCHIVE WHOLE REVISIONS ORIGINAL
//! at REVISION COUNT
//! SECONDS URI
//! end
//! ```
//!
//! There are N entries, by ARCHIVE and then by ORIGINAL, none twice. An entry is one `entry` line and then REVISIONS
//! revisions, at least one, each greater than the one before. WHOLE is the revision of the entry's whole harvest, which
//! is then the first of these revisions; it is `-` if all of them are of parts. A revision is one `at` line and then
//! COUNT lines of mementos, by SECONDS and then by URI, none twice. Texts are compared by their bytes. N, WHOLE,
//! REVISIONS, REVISION, COUNT and SECONDS are decimals of 64-bit numbers with no zero in front; SECONDS count from the
//! start of 1970 and lie before the year 10000.
//!
//! Format 1 is still read. It has only an entry's whole revision, in the `entry` line, and its mementos right below:
//!
//! ```text
//! memento-state 1
//! entries N
//! entry ARCHIVE REVISION COUNT ORIGINAL
//! SECONDS URI
//! end
//! ```
//!
//! The first line alone determines the format, so no text has two readings.
//!
//! A replica numbers the merges that it absorbs, and stamps each entry with the number of the merge that last changed
//! it (`Stamped`). A delta has the entries that the merges after the first START changed, up to the first END. It
//! begins with these two lines and continues as above from `entries N` on; START is at most END:
//!
//! ```text
//! memento-delta 2
//! from INCARNATION START END
//! ```
//!
//! A delta whose first line is `memento-delta 1` is still read, with entries of format 1.
//!
//! For each peer, a receiver keeps a cursor, which says how far it knows that peer's merges (`Cursors`). It accepts a
//! delta only if the delta starts at the beginning or within what the cursor reaches.
//!
//! In four groups:
//!
//! - what a replica knows: `stamped` (a state with the stamp of each entry), `stamps` (which are kept in slots) and
//!   `order` (keys by their stamps);
//! - what it hears: `cursor` (how far a peer's merges are known) and `delta` (what a peer has learnt since);
//! - texts: `writing`; `reading`, with `entries` (of a state), `fields` (of a line) and `format` (which of the two);
//! - `fault` (why bytes can't be read as a state) and `laws`.
#![tactic(auto)]

mod cursor;
mod delta;
mod entries;
mod fault;
mod fields;
mod format;
mod laws;
mod order;
mod reading;
mod stamped;
mod stamps;
mod writing;

pub use cursor::{Cursor, Cursors, TakeFault};
pub use delta::Delta;
pub use fault::StateFault;
pub use fields::{cut, read_original, skip};
pub use laws::{
    deltas_suffice, lines_stand_in_order, one_merge_is_absorbed, one_merge_more, one_stamped_state,
    one_text_of_a_delta, one_text_of_a_state,
};
pub use reading::{read_delta, read_state};
pub use stamped::{StampFault, Stamped};
pub use writing::{write_delta, write_entry, write_span, write_state};
