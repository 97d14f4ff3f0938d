//! What is sent to workers, and what they send back.
ghost use Rattle.std.specs.Prelude.{◌≡◌, ℕ};
ghost use Rattle.harvester.specs.Answers.{HasFirstUrl};
ghost use Rattle.harvester.specs.Unkept.{Comes};
ghost use Rattle.harvest_workers.specs.Errands.{archive_of};

use crate::errands::Errand;
use crate::rules::WalkRules;
use harvest_lattice::Harvest;
use harvest_schedule::Permit;
use harvester::{Job, WalkFault};
use std::marker::PhantomData;

/// A job that a worker is to walk: the job of its errand, with leave to ask its archive.
#[derive(Drop)]
pub struct Assignment<P: WalkRules> {
    permit: Permit,
    errand: Errand,
    job: Job,
    of: PhantomData<P>,

    ghost allowed: { permit.archive ≡ archive_of errand },
    ghost first: { HasFirstUrl job },
    ghost own: { ∥ P.jobs errand job ∥₁ },
}

/// What came of the job of an errand: one of the outcomes of that very job.
#[derive(Drop)]
pub struct WalkReport<P: WalkRules> {
    errand: Errand,
    job: Job,
    /// When the walk began, as a second since the start of 1970.
    begun: u64,
    result: Result<Harvest, WalkFault>,
    /// For how many seconds the archive asked to be left alone, if it did.
    asked: Option<u64>,
    of: PhantomData<P>,

    ghost own: { ∥ P.jobs errand job ∥₁ },
    ghost comes: { ∥ Comes P.answers P.faults job begun result asked ∥₁ },
}

/// What is in a report.
#[derive(Drop)]
pub struct Opened {
    pub errand: Errand,
    pub job: Job,
    pub begun: u64,
    pub result: Result<Harvest, WalkFault>,
    pub asked: Option<u64>,
}

impl<P: WalkRules> Assignment<P> {
    /// The assignment of an errand whose job this is, by leave to ask its archive, which is used up.
    pub fn new(permit: Permit, errand: Errand, job: Job) -> Assignment<P>
        requires allowed { permit.archive ≡ archive_of errand }
        requires first { HasFirstUrl job }
        requires own { ∥ P.jobs errand job ∥₁ }
        ensures errand { result.errand ≡ errand }
        ensures job { result.job ≡ job }
    {
        Assignment {
            permit,
            errand,
            job,
            of: PhantomData,
        }
    }

    /// The errand.
    pub fn errand(&self) -> Errand
        ensures { result ≡ self.now.errand }
    {
        self.errand
    }

    /// The errand, and its job. The leave to ask is used up.
    pub(crate) fn open(self) -> (Errand, Job)
        ensures errand { result.0 ≡ self.errand }
        ensures job { result.1 ≡ self.job }
        ensures first { HasFirstUrl result.1 }
        ensures own { ∥ P.jobs result.0 result.1 ∥₁ }
    {
        let Assignment {
            permit: _,
            errand,
            job,
            of: _,
        } = self;
        (errand, job)
    }
}

impl<P: WalkRules> WalkReport<P> {
    /// The report of what came of the job of an errand.
    pub(crate) fn new(opened: Opened) -> WalkReport<P>
        requires own { ∥ P.jobs opened.errand opened.job ∥₁ }
        requires comes { ∥ Comes P.answers P.faults opened.job opened.begun opened.result opened.asked ∥₁ }
        ensures errand { result.errand ≡ opened.errand }
        ensures job { result.job ≡ opened.job }
        ensures outcome { result.result ≡ opened.result }
    {
        let Opened {
            errand,
            job,
            begun,
            result: walked,
            asked,
        } = opened;
        WalkReport {
            errand,
            job,
            begun,
            result: walked,
            asked,
            of: PhantomData,
        }
    }

    /// The errand, its job, and what came of that job.
    pub fn open(self) -> Opened
        ensures errand { result.errand ≡ self.errand }
        ensures job { result.job ≡ self.job }
        ensures outcome { result.result ≡ self.result }
        ensures own { ∥ P.jobs result.errand result.job ∥₁ }
        ensures comes { ∥ Comes P.answers P.faults result.job result.begun result.result result.asked ∥₁ }
    {
        let WalkReport {
            errand,
            job,
            begun,
            result: walked,
            asked,
            of: _,
        } = self;
        Opened {
            errand,
            job,
            begun,
            result: walked,
            asked,
        }
    }
}
