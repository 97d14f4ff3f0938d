//! What becomes of harvests.

/// What becomes of a harvest that a walk brought.
#[derive(Clone, Copy, Debug, PartialEq, Eq)]
pub(crate) enum Fate {
    /// It waits for the next publish.
    Appended,
    /// It is withdrawn.
    Withdrawn,
    /// It is ahead of the clock.
    Ahead,
    /// A wish brought it, it has no memento, and nothing of its original is shown: to keep it would change no reply.
    Empty,
    /// A wish brought it, and unlisted originals have no room for its mementos.
    NoRoom,
    /// Memory was refused to append it, or to tell whether it is withdrawn.
    NoMemory,
}

impl Fate {
    /// Whether a wish's harvest of which this becomes answers the wish.
    pub(crate) fn is_answer(self) -> bool {
        matches!(self, Fate::Appended | Fate::Empty)
    }
}
