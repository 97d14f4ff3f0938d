//! What the jobs of a service are, and how they are walked.
ghost use Rattle.std.specs.Prelude.{◌≡◌, IfOk, IfSome, option_map};
ghost use Rattle.std.specs.Arc.{arc_value};
ghost use Rattle.harvest_workers.specs.Errands.{archive_of};
ghost use Rattle.service_threads.specs.Jobs.{AreLimitsAt, Covers};

use crate::jobs::job_at;
use harvest_schedule::Permit;
use harvest_workers::{Assignment, Errand, RuledFetch, WalkReport, WalkRules, walk_assignment};
use harvester::SocketRuntime;
use memento_time::Original;
use outgoing_requests::{CarefulFetch, FetchLimits, Patience};
use round_values::{Second, second_now};
use service_settings::Settings;
use std::alloc::{AllocError, Global};
use std::marker::PhantomData;
use std::sync::Arc;

/// The settings, of which the rules allow all jobs and all that may be fetched. Each worker has a copy, which shares
/// the settings.
#[derive(Drop)]
pub struct Terms<P: WalkRules> {
    settings: Arc<Settings, Global>,
    of: PhantomData<P>,

    ghost covers: { ∥ Covers (arc_value settings) P.jobs P.answers P.faults ∥₁ },
}

/// Within what the archive at this place of the settings is walked.
fn limits_at(settings: &Settings, archive: usize) -> FetchLimits
    ensures { AreLimitsAt settings.now archive result }
{
    FetchLimits {
        walk: settings.asking.walk,
        rate: settings.asking.rate,
        every: settings
            .archives
            .get(archive)
            .and_then(|archive| archive.every),
    }
}

impl<P: WalkRules> Terms<P> {
    /// These settings, whose jobs and answers the rules allow.
    pub fn new(settings: Arc<Settings, Global>) -> Terms<P>
        requires { Covers (arc_value settings) P.jobs P.answers P.faults }
        ensures { arc_value result.settings ≡ arc_value settings }
    {
        Terms {
            settings,
            of: PhantomData,
        }
    }

    pub(crate) fn try_clone(&self) -> Result<Terms<P>, AllocError>
        ensures { IfOk result (λ copy. arc_value copy.settings ≡ arc_value self.now.settings) }
    {
        let settings = Arc::try_clone(&self.settings)?;
        Ok(Terms {
            settings,
            of: PhantomData,
        })
    }

    /// The settings, which all copies share.
    pub fn settings(&self) -> &Settings
        ensures { result.now ≡ arc_value self.now.settings }
    {
        &*self.settings
    }

    /// The job of an errand's archive, which may be asked, for an original; its revision is this second. `None` if
    /// memory is refused, or if its URL is too long.
    pub fn assignment(
        &self,
        alloc: Global,
        permit: Permit,
        errand: Errand,
        original: &Original,
        revision: Second,
    ) -> Option<Assignment<P>>
        requires allowed { permit.archive ≡ archive_of errand }
        ensures errand { IfSome result (λ it. it.errand ≡ errand) }
        ensures original { IfSome result (λ it. it.job.original ≡ original.now) }
        ensures revision { IfSome result (λ it. it.job.revision ≡ revision.0) }
    {
        let job = job_at(
            alloc,
            self.settings(),
            errand.archive(),
            original,
            revision.0,
        )?;
        if !job.has_first_url() {
            return None;
        }
        Some(Assignment::new(permit, errand, job))
    }

    /// How the jobs of the archive at this place are fetched.
    fn fetch_at(&self, archive: usize) -> CarefulFetch<'_>
        ensures patience { result.patience.seconds ≡ (arc_value self.now.settings).patience }
        ensures limits { AreLimitsAt (arc_value self.now.settings) archive result.limits }
        ensures hosts { option_map (λ hosts. hosts.now) result.hosts
            ≡ option_map (λ hosts. hosts.items) (arc_value self.now.settings).hosts }
        ensures agent { option_map (λ agent. agent.now) result.agent ≡ (arc_value self.now.settings).agent }
    {
        let settings = self.settings();
        CarefulFetch {
            patience: Patience::of_seconds(settings.patience),
            hosts: settings.hosts.as_deref(),
            limits: limits_at(settings, archive),
            agent: settings.agent.as_ref(),
        }
    }

    /// Walks a job that was handed out.
    pub fn walk<R>(&self, rt: &R, assignment: Assignment<P>) -> WalkReport<P>
    where
        R: SocketRuntime,
        ensures errand { result.errand ≡ assignment.errand }
        ensures job { result.job ≡ assignment.job }
    {
        let fetch = self.fetch_at(assignment.errand().archive());
        let fetch: RuledFetch<CarefulFetch<'_>, P> = RuledFetch::new(fetch);
        walk_assignment(rt, &fetch, assignment, second_now(rt).0)
    }
}
