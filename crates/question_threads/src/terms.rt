//! Which job an archive has for an original, and how it is walked.
ghost use Rattle.std.specs.Prelude.{◌≡◌, ◌++◌, IfOk, option_copied, slice_get};
ghost use Rattle.std.specs.Arc.{arc_value};
ghost use Rattle.question_threads.specs.Jobs.{Covers, IsJobOf};

use harvest_schedule::Permit;
use harvest_workers::{Assignment, Errand, RuledFetch, WalkReport, WalkRules, walk_assignment};
use harvester::{Job, SocketRuntime};
use memento_time::{Clean, CleanFault, NoMemory, Original, second_now};
use outgoing_requests::{CarefulFetch, FetchLimits, Patience};
use service_settings::{Archive, Sources};
use std::alloc::{AllocError, Global};
use std::marker::PhantomData;
use std::sync::Arc;

/// The settings, of which the rules allow all jobs and all that may be fetched. Each worker has a copy, which shares
/// the settings.
#[derive(Drop)]
pub(crate) struct Terms<P: WalkRules> {
    sources: Arc<Sources, Global>,
    of: PhantomData<P>,

    ghost covers: { ∥ Covers (arc_value sources) P.jobs P.answers P.faults ∥₁ },
}

/// Why there is no job.
#[derive(Clone, Copy, Debug, PartialEq, Eq)]
pub(crate) enum NoJob {
    /// The address of its first page would be too long.
    TooLong,
    /// The allocator refused a growth.
    NoMemory,
}

impl From<NoMemory> for NoJob {
    fn from(_refused: NoMemory) -> NoJob {
        NoJob::NoMemory
    }
}

impl From<AllocError> for NoJob {
    fn from(_refused: AllocError) -> NoJob {
        NoJob::NoMemory
    }
}

/// The address of the first page of an archive's TimeMap.
fn first_url(alloc: Global, timemap: &Clean, original: &Original) -> Result<Clean, NoJob>
    ensures { IfOk result (λ first. first ≡ timemap.now ++ original.now) }
{
    let mut first = Vec::from_slice(alloc, timemap.as_bytes())?;
    first.extend_from_slice(original.as_bytes())?;
    match Clean::new(alloc, &first) {
        Ok(first) => Ok(first),
        Err(CleanFault::NotClean) => Err(NoJob::TooLong),
        Err(CleanFault::NoMemory) => Err(NoJob::NoMemory),
    }
}

/// The job of an archive for an original, whose revision is this second.
fn job_of(
    alloc: Global,
    archive: &Archive,
    original: &Original,
    revision: u64,
) -> Result<Job, NoJob>
    ensures archive { IfOk result (λ job. job.archive ≡ archive.now.name) }
    ensures original { IfOk result (λ job. job.original ≡ original.now) }
    ensures first { IfOk result (λ job. job.first ≡ archive.now.timemap ++ original.now) }
{
    let first = first_url(alloc, &archive.timemap, original)?;
    Ok(Job {
        archive: archive.name,
        original: original.try_clone()?,
        revision,
        first,
    })
}

/// The archive at this place.
fn archive_at(sources: &Sources, place: usize) -> Option<&Archive>
    ensures { option_copied result ≡ slice_get sources.now.archives.items place }
{
    sources.archives.get(place)
}

/// The job of the archive at this place for an original.
fn job_at(
    alloc: Global,
    sources: &Sources,
    place: usize,
    original: &Original,
    revision: u64,
) -> Result<Job, NoJob>
    ensures own { IfOk result (IsJobOf sources.now place) }
    ensures original { IfOk result (λ job. job.original ≡ original.now) }
{
    match archive_at(sources, place) {
        Some(archive) => job_of(alloc, archive, original, revision),
        None => Err(NoJob::TooLong),
    }
}

impl<P: WalkRules> Terms<P> {
    /// These settings, whose jobs and answers the rules allow.
    pub(crate) fn new(sources: Arc<Sources, Global>) -> Terms<P>
        requires { Covers (arc_value sources) P.jobs P.answers P.faults }
        ensures { result.sources ≡ sources }
    {
        Terms {
            sources,
            of: PhantomData,
        }
    }

    pub(crate) fn try_clone(&self) -> Result<Terms<P>, AllocError> {
        let sources = Arc::try_clone(&self.sources)?;
        Ok(Terms {
            sources,
            of: PhantomData,
        })
    }

    /// The settings, which all copies share.
    pub(crate) fn sources(&self) -> &Sources
        ensures { result.now ≡ arc_value self.now.sources }
    {
        &*self.sources
    }

    /// The job of an archive that may be asked, for an original.
    pub(crate) fn assignment(
        &self,
        alloc: Global,
        permit: Permit,
        original: &Original,
        revision: u64,
    ) -> Result<Assignment<P>, NoJob>
        ensures original { IfOk result (λ it. it.job.original ≡ original.now) }
    {
        let archive = permit.archive();
        let errand = Errand::Wish { archive };
        let job = job_at(alloc, self.sources(), errand.archive(), original, revision)?;
        if !job.has_first_url() {
            return Err(NoJob::TooLong);
        }
        Ok(Assignment::new(permit, errand, job))
    }

    /// Walks a job that was handed out.
    pub(crate) fn walk<R>(&self, rt: &R, assignment: Assignment<P>) -> WalkReport<P>
    where
        R: SocketRuntime,
    {
        let sources = self.sources();
        let every = match archive_at(sources, assignment.errand().archive()) {
            Some(archive) => archive.every,
            None => None,
        };
        let fetch = CarefulFetch {
            patience: Patience::of_seconds(sources.patience),
            hosts: sources.hosts.as_deref(),
            limits: FetchLimits {
                walk: sources.asking.walk,
                rate: sources.asking.rate,
                every,
            },
            agent: sources.agent.as_ref(),
        };
        let fetch: RuledFetch<CarefulFetch<'_>, P> = RuledFetch::new(fetch);
        walk_assignment(rt, &fetch, assignment, second_now(rt))
    }
}
