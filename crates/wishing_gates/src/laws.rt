//! What the status of a reply says.
ghost use Rattle.wishing_gates.specs.Asked.{IsAbsentWhereNothingIsShown};

/// A request for a TimeGate or a TimeMap is a 404 exactly where nothing of its original is shown. So the status tells
/// whether an original is wished for, and no body has to be read.
pub fn absent_where_nothing_is_shown()
    ensures { IsAbsentWhereNothingIsShown }
{}
