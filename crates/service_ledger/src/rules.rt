//! With what the merger of a service begins.
use std::marker::Brand;

/// Names what a merger is when a service begins, for proofs alone.
pub trait Begins {
    ghost use Rattle.published_index.specs.Views.{MergerView};

    /// The merger, as a start leaves it: with what the snapshot has, or with nothing.
    ghost begun: { MergerView };
}

impl Begins for Brand {
    ghost use Rattle.published_index.specs.Views.{MergerView};
    ghost use Rattle.service_ledger.specs.Leads.{nothing};

    ghost begun = { nothing };
}
