//! What a replica keeps of what it knows, and what it forgets.
//!
//! A rule says of each archive and original whether their entry is kept. A state restricted by a rule has the entries
//! that it keeps, as they were, and no others. To forget is to begin anew with such a restriction; what peers give is
//! restricted before it is taken, so that nothing forgotten comes back.
//!
//! - `withdrawing`: what is never kept, by archive, by original or by the beginning of an original;
//! - `restricting`: the rule of a service, and a state restricted by it;
//! - `amounts`: how much is known, in entries and in mementos;
//! - `ages` and `floors`: how young what is known of originals is, and from which second on as much is known as may be
//!   kept;
//! - `forgetting`: what stays where more is known than may be;
//! - `laws`.
#![tactic(auto)]

mod ages;
mod amounts;
mod floors;
mod forgetting;
mod laws;
mod restricting;
mod withdrawing;

pub use amounts::{Amount, amount_of, amount_of_entry};
pub use floors::{is_from_floor, young_originals};
pub use forgetting::{Remainder, unlisted_amount, without_oldest};
pub use laws::{
    a_restriction_is_of_kept_harvests, ages_by_example, amounts_by_example,
    forgotten_stays_forgotten, kept_originals_are_shown_the_same, restriction_commutes_with_join,
    restrictions_meet, what_is_taken_in_suffices,
};
pub use restricting::{Retention, Unlisted, restricted};
pub use withdrawing::Withdrawn;
