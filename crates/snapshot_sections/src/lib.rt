//! Several texts in one file, such that a file that was cut short is known as one.
//!
//! ```text
//! memento-snapshot 1
//! section LENGTH
//! LENGTH bytes
//! sections N
//! ```
//!
//! There are N sections, each of which is one line and then a text of as many bytes as that line says. Nothing follows
//! the last line. LENGTH and N are decimals of 64-bit numbers with no zero in front. A text has at most 268,435,456
//! bytes.
//!
//! What is written is read back as the same texts, and no beginning of it is read as anything
//! (`sections_are_read_back`).
#![tactic(auto)]

mod fault;
mod laws;
mod lines;
mod reading;
mod writing;

pub use fault::SectionFault;
pub use laws::sections_are_read_back;
pub use lines::Line;
pub use reading::{next_section, read_first_line};
pub use writing::{write_bytes, write_first_line, write_last_line, write_section_line};
