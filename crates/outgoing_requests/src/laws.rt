//! Worked examples. No program calls these functions: each is a statement with its proof.
ghost use Rattle.outgoing_requests.specs.Addresses.{AreAddresses};
ghost use Rattle.outgoing_requests.specs.Targets.{AreTargets};

/// The targets that the requests for some URLs name.
pub fn targets_by_example()
    ensures { AreTargets }
{}

/// Which addresses a listed host leads to, on both sides of each border.
pub fn addresses_by_example()
    ensures { AreAddresses }
{}
