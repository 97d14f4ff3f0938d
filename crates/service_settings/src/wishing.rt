//! What readers may wish for, and where more originals are named.
ghost use Rattle.std.specs.Prelude.{◌≡◌, ◌≤◌, IfOk, IfSome, None, false, length};
ghost use Rattle.std.specs.NonZero.{non_zero_usize_get};
ghost use Rattle.service_settings.specs.Limits.{IsWithin, limits};

use crate::fault::{Key, SettingsFault};
use crate::values::{number_if, number_or, text_if, wants};
use std::alloc::Global;
use std::num::NonZeroUsize;
use toml::Table;

/// How many wishes are taken in a minute by default.
const DEFAULT_WISHES: u64 = 60;

/// What readers may wish for, and where more originals are named.
#[derive(Debug, Drop)]
pub struct Wishing {
    /// How many wished originals are remembered of which something is shown, and as many more of which nothing is;
    /// `None` if no wishes are taken.
    pub wanted: Option<NonZeroUsize>,
    /// How many wishes are taken in one minute.
    pub wishes: u64,
    /// Whether the other spellings of a wished original are wished for, too.
    pub alike: bool,
    /// The path of a file with an original in each line; `None` if there is none.
    pub originals_file: Option<String>,
}

/// What readers may wish for, by the keys from `wanted` to `originals_file`.
pub(crate) fn wishing_at(alloc: Global, table: &Table) -> Result<Wishing, SettingsFault>
    ensures wanted { IfOk result (λ wishing. IfSome wishing.wanted
        (λ most. IsWithin Key.Wanted (non_zero_usize_get most))) }
    ensures wishes { IfOk result (λ wishing. IsWithin Key.Wishes wishing.wishes) }
    ensures file { IfOk result (λ wishing. IfSome wishing.originals_file
        (λ path. IsWithin Key.OriginalsFile (length path.bytes.items))) }
{
    let wanted = number_or(table, Key::Wanted, 0)?;
    let wishes = number_or(table, Key::Wishes, DEFAULT_WISHES)?;
    let alike = wants(table, Key::Alike)?;
    let originals_file = text_if(alloc, table, Key::OriginalsFile)?;
    Ok(Wishing {
        wanted: NonZeroUsize::new(wanted as usize),
        wishes,
        alike,
        originals_file,
    })
}

/// For how many seconds a request is held. That takes wishes, and several connections at once; where it can't be, the
/// key has to be missing.
pub(crate) fn wait_at(table: &Table, may_hold: bool) -> Result<Option<u64>, SettingsFault>
    ensures within { IfOk result (λ wait. IfSome wait (IsWithin Key.Wait)) }
    ensures held { may_hold ≡ false → IfOk result (λ wait. wait ≡ None) }
{
    let wait = number_if(table, Key::Wait)?;
    if wait.is_some() && !may_hold {
        return Err(SettingsFault::Key(Key::Wait));
    }
    Ok(wait)
}
