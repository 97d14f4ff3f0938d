//! Laws for readers. These functions do nothing when they run.
ghost use Rattle.round_values.specs.Absences.{ArePauses, PausesAreWhole};
ghost use Rattle.round_values.specs.Desks.{AreNoted};
ghost use Rattle.round_values.specs.Freshness.{AreYoung};
ghost use Rattle.round_values.specs.Revisions.{AreRevisions, LaterWins};

/// Of two walks of one archive and original in one replica the one that is handed out later has no smaller revision,
/// unless the clock went back.
pub fn later_walks_win()
    ensures { LaterWins }
{}

/// Revisions of walks without wishes, with them, and with what isn't asked for again.
pub fn revisions_by_example()
    ensures { AreRevisions }
{}

/// Whichever archives are absent, from one round that asks all to the next the service waits for the whole pause.
pub fn pauses_are_whole()
    ensures { PausesAreWhole }
{}

/// What follows rounds with absent archives and without them.
pub fn pauses_by_example()
    ensures { ArePauses }
{}

/// Since when wishes wait for an archive: what was noted first counts, until the waiting ends.
pub fn waits_by_example()
    ensures { AreNoted }
{}

/// What was looked at less than a minute ago is young, also by a clock that is ahead by less than a minute.
pub fn youth_by_example()
    ensures { AreYoung }
{}
