//! Laws for readers. These functions do nothing when they run.
ghost use Rattle.service_status.specs.Exposition.{AreReadBack};
ghost use Rattle.service_status.specs.Series.{NoSeriesTwice};
ghost use Rattle.service_status.specs.Examples.{AreExamples};

/// Each line of a sample is read back as its name, its labels and its value, whatever the labels hold and whatever
/// follows the line.
pub fn samples_are_read_back()
    ensures { AreReadBack }
{}

/// No two lines of a status have one name and one list of labels, if no two of its archives have one name, and no two
/// peers and no two gates have one number.
pub fn series_are_told_once()
    ensures { NoSeriesTwice }
{}

/// What lines and replies are, by examples.
pub fn texts_by_example()
    ensures { AreExamples }
{}
