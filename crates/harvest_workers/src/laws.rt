//! Laws for readers. These functions do nothing when they run.
ghost use Rattle.harvest_workers.specs.Verdicts.{AreFair, AreVerdicts};

/// What a wish's walk comes to counts as a failure only where no head of an answer came. For whatever errand an answer
/// below 500 shows that the archive is there, but for 408 and 429, and an archive that asks to be left alone is.
pub fn answers_are_no_failures()
    ensures { AreFair }
{}

/// Worked examples of verdicts.
pub fn verdicts_by_example()
    ensures { AreVerdicts }
{}
