//! The settings of a service, read from TOML.
//!
//! `read_settings` gives `Settings` only if each key holds what it may: keys are looked for in the order of `Key`, and
//! the fault is the first that is missing or holds what it may not. `Key::limits` says how much each may hold.
//!
//! In four groups:
//!
//! - the whole: `settings` (all of them, and how they are read), `sources` (those of them that say which archives are
//!   asked, where there is no service), `fault` (the keys, their limits, and why a text gives no settings);
//! - what stands at one key: `values` (numbers, and lists of texts), `archives` and `hosts`;
//! - the keys that are this service's own, by what they are for: `threads`, `asking`, `timing`, `wishing`, `storing`,
//!   `showing` and `forgetting`;
//! - what is told beside the fault: `entries` (which entry of the originals is none, and where more is told at all),
//!   `unknown` (which keys aren't looked at), `holding` (what a key may hold, in words) and `printing` (how a text is
//!   shown that may hold anything).
//!
//! What follows from the definitions is in `laws`.
#![tactic(auto)]

mod archives;
mod asking;
mod entries;
mod fault;
mod forgetting;
mod holding;
mod hosts;
mod laws;
mod printing;
mod settings;
mod showing;
mod sources;
mod storing;
mod threads;
mod timing;
mod unknown;
mod values;
mod wishing;

pub use archives::Archive;
pub use asking::Asking;
pub use entries::bad_original;
pub use fault::{Key, SettingsFault};
pub use forgetting::{DEFAULT_MOST, Forgetting};
pub use holding::Holding;
pub use laws::{
    limits_by_example, peers_by_example, threads_by_example, unknown_keys_are_no_names,
    what_is_shown_is_plain,
};
pub use printing::shown;
pub use settings::{MAX_TEXT, Settings, read_settings};
pub use sources::{Sources, read_sources};
pub use storing::Storing;
pub use threads::{SMALL_STACK, Stacks, WalkThreads};
pub use timing::Timing;
pub use unknown::unknown_keys;
pub use wishing::Wishing;
