//! What a worker is sent for.
ghost use Rattle.std.specs.Prelude.{◌≡◌};
ghost use Rattle.harvest_workers.specs.Errands.{archive_of};

use harvest_schedule::Turn;

/// What a worker is sent for.
#[derive(Clone, Copy, Debug, PartialEq, Eq)]
pub enum Errand {
    /// A job of a round: the one of this turn.
    Round(Turn),
    /// A wish, for which this archive is asked. No list of originals has its place.
    Wish { archive: usize },
}

impl Errand {
    /// The place of the archive that is asked.
    pub fn archive(self) -> usize
        ensures { result ≡ archive_of self }
    {
        match self {
            Errand::Round(turn) => turn.archive,
            Errand::Wish { archive } => archive,
        }
    }
}
