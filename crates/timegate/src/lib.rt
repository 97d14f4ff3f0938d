//! The replies of the service to its clients, byte for byte: the redirects of a TimeGate and the TimeMaps of originals
//! (RFC 7089, sections 4 and 5).
#![tactic(auto)]

mod answering;
mod laws;
mod reply;
mod request;
mod route;

pub use answering::answer;
pub use laws::{
    deltas_stand_at_their_cursors, head_is_get_without_body, headers_stand_in_order,
    pages_stand_at_their_numbers, redirects_name_the_nearest, replies_from_state,
    same_harvests_same_reply, timegates_vary,
};
pub use reply::{Header, Reply};
pub use request::Request;
pub use route::original_at;
