//! When archives and peers are asked, and when what came is published.
ghost use Rattle.std.specs.Prelude.{◌≡◌, ◌↔◌, ◌⊎◌, ◌*◌, IfOk, IfSome, IsSome, IsTrue, None, Some};
ghost use Rattle.service_settings.specs.Limits.{IsWithin};

use crate::fault::{Key, SettingsFault};
use crate::values::number_if;
use toml::Table;

/// When archives and peers are asked, and when what came is published.
#[derive(Clone, Copy, Debug)]
pub struct Timing {
    /// For how many seconds what is known of an archive and original isn't asked for again; `None` if it always is.
    pub again: Option<u64>,
    /// The same where the archive has nothing of the original.
    pub again_none: Option<u64>,
    /// How many seconds ahead of this replica's clock what is taken may be looked at; `None` if any number.
    pub ahead: Option<u64>,
    /// While a round goes on, what came is published each time that this many seconds have passed; `None` if only at
    /// its end.
    pub publish: Option<u64>,
    /// Peers are pulled before the first round, and each time that this many seconds have passed; `None` if only at a
    /// round's end.
    pub pull: Option<u64>,
    /// Peers are asked for their deltas part by part, and gates answer with parts of as many MiB; `None` if deltas are
    /// asked for and answered with as a whole.
    pub parts: Option<u64>,
}

impl Timing {
    /// How many bytes of lines a part of a delta has at most, if there are parts.
    pub fn room(&self) -> Option<usize>
        ensures some { IfSome self.now.parts (λ most. IsWithin Key.Parts most → result ≡ Some (most * 1048576)) }
        ensures none { self.now.parts ≡ None → result ≡ None }
    {
        let most = self.parts?;
        Some((most as usize).saturating_mul(1_048_576))
    }
}

/// When archives and peers are asked, by the keys from `again` to `parts`.
pub(crate) fn timing_at(table: &Table) -> Result<Timing, SettingsFault>
    ensures again { IfOk result (λ timing. IfSome timing.again (IsWithin Key.Again)) }
    ensures again_none { IfOk result (λ timing. IfSome timing.again_none (IsWithin Key.AgainNone)) }
    ensures ahead { IfOk result (λ timing. IfSome timing.ahead (IsWithin Key.Ahead)) }
    ensures publish { IfOk result (λ timing. IfSome timing.publish (IsWithin Key.Publish)) }
    ensures pull { IfOk result (λ timing. IfSome timing.pull (IsWithin Key.Pull)) }
    ensures parts { IfOk result (λ timing. IfSome timing.parts (IsWithin Key.Parts)) }
{
    let again = number_if(table, Key::Again)?;
    let again_none = match number_if(table, Key::AgainNone)? {
        Some(seconds) => Some(seconds),
        None => again,
    };
    let ahead = number_if(table, Key::Ahead)?;
    let publish = number_if(table, Key::Publish)?;
    let pull = number_if(table, Key::Pull)?;
    let parts = number_if(table, Key::Parts)?;
    Ok(Timing {
        again,
        again_none,
        ahead,
        publish,
        pull,
        parts,
    })
}
