//! Laws of whole wishes, and of many.
ghost use Rattle.wish_list.specs.Allowance.{AreFewInAMinute};
ghost use Rattle.wish_list.specs.Examples.{AreExamples};
ghost use Rattle.wish_list.specs.Stages.{AreAskedOnce};

/// For a wish each archive is asked once or never, whatever happens: once where its stage says that it was asked.
pub fn archives_are_asked_once()
    ensures { AreAskedOnce }
{}

/// In whatever order wishes come, no more are taken that count to one minute than may be, beside those that are given
/// back, unless the clock is set back by more than a minute.
pub fn wishes_are_few_in_a_minute()
    ensures { AreFewInAMinute }
{}

/// What becomes of wishes, on both sides of each limit.
pub fn wishes_by_example()
    ensures { AreExamples }
{}
