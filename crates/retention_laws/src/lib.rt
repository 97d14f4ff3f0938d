//! Laws of forgetting: what follows for replies, for deltas and for cursors.
#![tactic(auto)]

mod laws;

pub use laws::{
    cursors_stay_reached, kept_deltas_suffice, kept_originals_reply_the_same,
    replicas_agree_on_what_both_keep,
};
