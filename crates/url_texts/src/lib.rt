//! Reads texts as URLs (the URL Standard, as the crate `url` implements it), with a single error for memory that is
//! refused.
#![tactic(auto)]

mod reading;

pub use reading::{join_url, read_url};
