//! Laws for readers. These functions do nothing when they run.
ghost use Rattle.std.specs.Prelude.{◌≡◌, ◌↔◌, ◌&&◌, ◌<◌, ◌^◌, ℕ, List, All, true, length, not, is_some};
ghost use Rattle.std.specs.List.{list_all};
ghost use Rattle.toml.specs.Data.{Members, get_member};
ghost use Rattle.service_settings.specs.declared.fault.Key.{Key};
ghost use Rattle.service_settings.specs.declared.unknown.Place.{Place};
ghost use Rattle.service_settings.specs.Keys.{is_name, name_of};
ghost use Rattle.service_settings.specs.Limits.{AreLimits};
ghost use Rattle.service_settings.specs.Peers.{AreReached};
ghost use Rattle.service_settings.specs.Shown.{is_plain, shown};
ghost use Rattle.service_settings.specs.Threads.{AreThreads};
ghost use Rattle.service_settings.specs.Unknown.{is_among, is_known, unknown};

/// How much settings may hold, by examples on both sides of each limit.
pub fn limits_by_example()
    ensures { AreLimits }
{}

/// Which peers can be asked, by examples.
pub fn peers_by_example()
    ensures { AreReached }
{}

/// In which threads walks run, by examples.
pub fn threads_by_example()
    ensures { AreThreads }
{}

/// Which keys of a table aren't looked at: all that are no names. A name at the top is that of a `Key`.
pub fn unknown_keys_are_no_names()
    ensures names { (text : List ℕ) → (is_name text ≡ true) ↔ ((k : Key) × (name_of k ≡ text)) }
    ensures unknown { (place : Place) (members : Members) (text : List ℕ)
        → is_among text (unknown place members) ≡ (is_some (get_member text members) && not (is_known place text)) }
{}

/// What is shown of a text is blanks and what prints in ASCII, whatever its bytes are: one line, without an escape.
pub fn what_is_shown_is_plain()
    ensures { (most : ℕ) (text : List ℕ) → All (λ byte. byte < 256) text → length text < 2 ^ 64
        → list_all is_plain (shown most text) ≡ true }
{}
