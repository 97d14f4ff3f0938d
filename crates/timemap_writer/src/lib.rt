//! What a TimeGate and TimeMap server writes about mementos: the TimeMap of an original (RFC 7089, section 5) in
//! link-format (RFC 6690), and the `Link` header of a redirect. Also the base under which both are served.
#![tactic(auto)]

mod laws;
mod lines;
mod service;
mod timemap;

pub use laws::{
    bases_are_urls, ends_are_named, pages_are_read, pages_are_the_list, timemaps_are_read,
};
pub use service::{Service, ServiceFault};
pub use timemap::{pages, write_gate_links, write_index, write_page, write_timemap};
