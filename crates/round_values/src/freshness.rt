//! Which jobs needn't be walked, since what is known is young enough.
ghost use Rattle.std.specs.Prelude.{◌≡◌};
ghost use Rattle.round_values.specs.Freshness as spec;

use crate::times::Second;
use harvest_lattice::Entry;
use service_settings::Timing;

/// Whether what was looked at in this second is less than so many seconds old, or as little ahead of the clock.
pub(crate) fn is_young(seen: Second, now: Second, seconds: Option<u64>) -> bool
    ensures { result ≡ spec.is_young seen.0 now.0 seconds }
{
    match seconds {
        Some(seconds) => now.since(seen) < seconds && seen.since(now) < seconds,
        None => false,
    }
}

/// Whether an entry has a memento.
pub fn has_mementos(entry: &Entry) -> bool
    ensures { result ≡ spec.has_mementos entry.now }
{
    for k in 0..entry.revisions() {
        if !entry.mementos(k).is_empty() {
            return true;
        }
    }
    false
}

/// Whether the whole harvest that is known is too young to be made anew in this second.
pub fn is_fresh(timing: Timing, entry: &Entry, now: Second) -> bool
    ensures { result ≡ spec.is_fresh timing entry.now now.0 }
{
    let Some(seen) = entry.whole() else {
        return false;
    };
    let seconds = if has_mementos(entry) {
        timing.again
    } else {
        timing.again_none
    };
    is_young(Second(seen), now, seconds)
}
