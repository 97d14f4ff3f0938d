//! Which job a turn is of, and how young what is published of it is.
ghost use Rattle.std.specs.Prelude.{◌≡◌, IfSome, Some, slice_get};
ghost use Rattle.published_index.specs.Batches.{merges_of};
ghost use Rattle.replica_exchange.specs.Stamps.{state_after};
ghost use Rattle.round_course.specs.Asking as spec;

use harvest_schedule::Turn;
use memento_time::{ArchiveName, Original};
use published_index::Merger;
use round_values::{Second, is_fresh};
use service_settings::{Archive, Settings, Timing};
use service_threads::original_of;

/// The archive and the original of a turn, if both are there.
pub(crate) fn job_at<'a>(
    settings: &'a Settings,
    list: &'a [Original],
    turn: Turn,
) -> Option<(&'a Archive, &'a Original)>
    ensures archive { IfSome result (λ job.
        slice_get settings.now.archives.items turn.archive ≡ Some job.0.now) }
    ensures original { IfSome result (λ job. slice_get list.now turn.original ≡ Some job.1.now) }
{
    let archive = settings.archives.get(turn.archive)?;
    let original = original_of(list, turn)?;
    Some((archive, original))
}

/// Whether what is published of an archive's original is young enough in this second.
pub fn is_young(
    timing: Timing,
    merger: &Merger,
    archive: ArchiveName,
    original: &Original,
    second: Second,
) -> bool
    ensures { result ≡ spec.is_young_in timing (state_after (merges_of merger.now.published))
        (archive, original.now) second.0 }
{
    match merger.published_entry(archive, original) {
        Some(entry) => is_fresh(timing, entry, second),
        None => false,
    }
}
