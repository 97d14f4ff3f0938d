//! What is forgotten of what is known, and how much of it there may be.
ghost use Rattle.std.specs.Prelude.{◌≡◌, IfOk, IfSome, is_some, length, true};
ghost use Rattle.service_settings.specs.Limits.{IsWithin};

use crate::fault::{Key, SettingsFault};
use crate::values::{number_if, text_if};
use std::alloc::Global;
use toml::Table;

/// How many mementos unlisted originals may have in all by default where something is forgotten. In several revisions
/// each takes some 212 bytes, and while something is forgotten six tenths more: 1.3 GiB of the 3 GiB of the unit's
/// `LimitDATA`.
pub const DEFAULT_MOST: u64 = 4_000_000;

/// What is forgotten of what is known, and how much of it there may be.
#[derive(Debug, Drop)]
pub struct Forgetting {
    /// How many seconds pass at least until what is known beyond what is wanted is forgotten again; `None` if it never
    /// is.
    pub every: Option<u64>,
    /// The path of a file that names what is withdrawn; `None` if nothing is.
    pub withdrawn_file: Option<String>,
    /// How many mementos unlisted originals may have in all; `None` if any number.
    pub most: Option<u64>,
}

/// The bound in mementos: a default only where something is forgotten.
fn most_at(table: &Table, forgets: bool) -> Result<Option<u64>, SettingsFault>
    ensures within { IfOk result (λ most. IfSome most (IsWithin Key.Most)) }
    ensures bounded { forgets ≡ true → IfOk result (λ most. is_some most ≡ true) }
{
    match number_if(table, Key::Most)? {
        Some(most) => Ok(Some(most)),
        None if forgets => Ok(Some(DEFAULT_MOST)),
        None => Ok(None),
    }
}

/// What is forgotten, by the keys `forget`, `withdrawn_file` and `most`. Where something is forgotten by its age, there
/// is a bound in mementos.
pub(crate) fn forgetting_at(alloc: Global, table: &Table) -> Result<Forgetting, SettingsFault>
    ensures every { IfOk result (λ forgetting. IfSome forgetting.every (IsWithin Key.Forget)) }
    ensures file { IfOk result (λ forgetting. IfSome forgetting.withdrawn_file
        (λ path. IsWithin Key.WithdrawnFile (length path.bytes.items))) }
    ensures most { IfOk result (λ forgetting. IfSome forgetting.most (IsWithin Key.Most)) }
    ensures bounded { IfOk result (λ forgetting. is_some forgetting.every ≡ true → is_some forgetting.most ≡ true) }
{
    let every = number_if(table, Key::Forget)?;
    let withdrawn_file = text_if(alloc, table, Key::WithdrawnFile)?;
    let most = most_at(table, every.is_some())?;
    Ok(Forgetting {
        every,
        withdrawn_file,
        most,
    })
}
