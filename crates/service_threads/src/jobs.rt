//! The jobs of rounds and wishes.
ghost use Rattle.std.specs.Prelude.{◌≡◌, ◌++◌, IfSome, option_copied, slice_get};
ghost use Rattle.service_threads.specs.Jobs.{IsJobOf};

use harvest_schedule::Turn;
use harvester::Job;
use memento_time::{Clean, Original};
use service_settings::{Archive, Settings};
use std::alloc::Global;

/// The original of a turn, by its place in the list of a round, if it is there.
pub fn original_of(list: &[Original], turn: Turn) -> Option<&Original>
    ensures { option_copied result ≡ slice_get list.now turn.original }
{
    list.get(turn.original)
}

/// The job of the archive at this place for an original, if there is such an archive. Also `None` if memory is refused,
/// or if its URL is too long.
pub(crate) fn job_at(
    alloc: Global,
    settings: &Settings,
    place: usize,
    original: &Original,
    revision: u64,
) -> Option<Job>
    ensures own { IfSome result (IsJobOf settings.now place) }
    ensures original { IfSome result (λ job. job.original ≡ original.now) }
    ensures revision { IfSome result (λ job. job.revision ≡ revision) }
{
    let archive = settings.archives.get(place)?;
    let job = job_of(alloc, archive, original, revision)?;
    Some(job)
}

/// The job of an archive for an original. Its first URL is the archive's `timemap` followed by the original. `None` if
/// memory is refused, or if the URL is too long.
fn job_of(alloc: Global, archive: &Archive, original: &Original, revision: u64) -> Option<Job>
    ensures archive { IfSome result (λ job. job.archive ≡ archive.now.name) }
    ensures original { IfSome result (λ job. job.original ≡ original.now) }
    ensures revision { IfSome result (λ job. job.revision ≡ revision) }
    ensures first { IfSome result (λ job. job.first ≡ archive.now.timemap ++ original.now) }
{
    let first = first_url(alloc, &archive.timemap, original)?;
    let original = original.try_clone().ok()?;
    Some(Job {
        archive: archive.name,
        original,
        revision,
        first,
    })
}

fn first_url(alloc: Global, timemap: &Clean, original: &Original) -> Option<Clean>
    ensures { IfSome result (λ first. first ≡ timemap.now ++ original.now) }
{
    let mut first = timemap.as_bytes().to_vec(alloc).ok()?;
    first.extend_from_slice(original.as_bytes()).ok()?;
    Clean::new(alloc, &first).ok()
}
