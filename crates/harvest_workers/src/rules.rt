//! What the messages of a service keep to.
ghost use Rattle.harvest_workers.specs.Allowing.{Allows};

use harvester::Fetch;
use std::marker::{Brand, PhantomData};

/// Names what jobs errands have and what may be fetched, for proofs alone.
pub trait WalkRules {
    ghost use Rattle.std.specs.Prelude.{ℕ, List};
    ghost use Rattle.harvester.specs.declared.fetches.Answer.{Answer};
    ghost use Rattle.harvester.specs.declared.faults.FetchFault.{FetchFault};
    ghost use Rattle.harvester.specs.declared.jobs.Job.{Job};
    ghost use Rattle.harvest_workers.specs.declared.errands.Errand.{Errand};

    /// Holds for each job that a worker may be sent for.
    ghost jobs: { Errand → Job → Type 0 };

    /// Holds for each answer that may be fetched for a URL.
    ghost answers: { List ℕ → Answer → Type 0 };

    /// Holds for each fault that a fetch of a URL may end in.
    ghost faults: { List ℕ → FetchFault → Type 0 };
}

impl WalkRules for Brand {
    ghost use Rattle.std.specs.Prelude.{⊤};

    ghost jobs = { λ _ _. ⊤ };

    ghost answers = { λ _ _. ⊤ };

    ghost faults = { λ _ _. ⊤ };
}

/// A fetch that keeps to the rules.
#[derive(Drop)]
pub struct RuledFetch<F: Fetch, P: WalkRules> {
    fetch: F,
    of: PhantomData<P>,

    ghost allowed: { ∥ Allows P.answers P.faults (F.answers fetch) (F.faults fetch) ∥₁ },
}

impl<F: Fetch, P: WalkRules> RuledFetch<F, P> {
    /// A fetch of which the rules allow all that it may give.
    pub fn new(fetch: F) -> RuledFetch<F, P>
        requires { ∥ Allows P.answers P.faults (F.answers fetch) (F.faults fetch) ∥₁ }
    {
        RuledFetch {
            fetch,
            of: PhantomData,
        }
    }

    /// The fetch itself.
    pub(crate) fn fetch(&self) -> &F
        ensures { ∥ Allows P.answers P.faults (F.answers result.now) (F.faults result.now) ∥₁ }
    {
        &self.fetch
    }
}
