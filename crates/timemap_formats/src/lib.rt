//! TimeMaps in the forms that other aggregators write beside link-format: JSON and CDXJ.
//!
//! `read_listing` reads what a TimeMap, the index of its pages or a page in link-format lists, and `write_listing`
//! writes it in another form: the same mementos in the same order.
#![tactic(auto)]

mod addresses;
mod cdxj;
mod dates;
mod forms;
mod json_form;
mod laws;
mod listing;
mod reading;

pub use forms::{Form, Forms, write_listing};
pub use laws::{datetimes_are_told, json_is_read, timemaps_are_listed};
pub use listing::{Ends, Head, Listing, PageLink, Row};
pub use reading::read_listing;
