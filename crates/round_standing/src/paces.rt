//! How often archives may be asked.
ghost use Rattle.std.specs.Prelude.{◌≡◌, IfOk};
ghost use Rattle.round_standing.specs.Paces as spec;
ghost use Rattle.round_standing.specs.Paces.{IsNew};

use harvest_schedule::{Limits, Pace, Schedule};
use service_settings::{Archive, Settings};
use std::alloc::{AllocError, Global};

/// How often an archive may be asked. An archive with a time between two requests is walked one at a time.
fn pace_of(settings: &Settings, archive: &Archive) -> Pace
    ensures { result ≡ spec.pace_of settings.now archive.now }
{
    let at_once = archive.at_once.unwrap_or(settings.asking.at_once);
    match archive.every {
        Some(every) => Pace { at_once: 1, every },
        None => Pace {
            at_once: at_once as usize,
            every: 0,
        },
    }
}

/// The schedule of these settings, in which no round has begun. Its times are milliseconds.
pub(crate) fn schedule_of(alloc: Global, settings: &Settings) -> Result<Schedule, AllocError>
    ensures { IfOk result (IsNew settings.now) }
{
    let mut paces = Vec::with_capacity(alloc, settings.archives.len())?;
    for archive in &settings.archives {
        paces.push(pace_of(settings, archive))?;
    }
    let limits = Limits {
        tolerance: settings.asking.tolerance,
        pause: settings.asking.dormant.saturating_mul(1_000),
    };
    Schedule::new(alloc, limits, &paces, 0)
}
