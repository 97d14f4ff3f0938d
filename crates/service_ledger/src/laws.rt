//! A law of the definitions. This function does nothing when it runs.
ghost use Rattle.published_index.specs.Views.{MergerView};
ghost use Rattle.service_ledger.specs.Leads.{Leads};
ghost use Rattle.service_ledger.specs.Sources.{HasSources};

use harvest_workers::WalkRules;

/// Nothing that a service knows is made up, whatever its rules are. It is made of harvests that were given: each is one
/// that the service began with, or came of a walk of a job of its own, or stands in a delta that the answer of a peer
/// brought.
pub fn what_is_known_was_given<P: WalkRules>()
    ensures { (begun m : MergerView) → Leads P.jobs P.answers P.faults begun m
        → HasSources P.jobs P.answers P.faults begun m }
{}
