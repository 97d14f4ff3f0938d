//! Which revision a walk has.
ghost use Rattle.std.specs.Prelude.{◌≡◌};
ghost use Rattle.round_values.specs.Revisions as spec;

use crate::times::Second;
use service_settings::Settings;

/// The revision of a walk that is handed out in this second, if the last round began in that one. Where rounds alone
/// walk, and walk all, it is the second of the round; otherwise it is the walk's own, so that of two walks of one
/// archive and original the one that looked later wins.
pub fn revision_of(settings: &Settings, round: Second, now: Second) -> Second
    ensures { result.0 ≡ spec.revision_of settings.now (record { round = round.0; second = now.0 }) }
{
    if settings.timing.again.is_some() || settings.wishing.wanted.is_some() {
        now
    } else {
        round
    }
}
