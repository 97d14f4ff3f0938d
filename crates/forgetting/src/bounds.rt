//! How much may be known of originals that no round looks after.
ghost use Rattle.std.specs.Prelude.{◌≡◌, ◌*◌, ◌-◌, ◌^◌, IfSome, None, length, min, unwrap_or};
ghost use Rattle.std.specs.NonZero.{non_zero_usize_get};

use retention::Amount;
use service_settings::Settings;

/// How much may be known of unlisted originals by these settings.
pub(crate) fn most_of(settings: &Settings) -> Amount
    ensures wanted { IfSome settings.now.wishing.wanted (λ wanted. result.entries
        ≡ min (non_zero_usize_get wanted * length settings.now.archives.items) (2 ^ 64 - 1)) }
    ensures unwanted { settings.now.wishing.wanted ≡ None → result.entries ≡ 0 }
    ensures most { result.mementos ≡ unwrap_or settings.now.forgetting.most (2 ^ 64 - 1) }
{
    let wanted = match settings.wishing.wanted {
        Some(wanted) => wanted.get(),
        None => 0,
    };
    Amount {
        entries: wanted.saturating_mul(settings.archives.len()) as u64,
        mementos: settings.forgetting.most.unwrap_or(u64::MAX),
    }
}
