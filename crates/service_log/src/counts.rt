//! How many walks of an archive ended in which way.
ghost use Rattle.std.specs.Prelude.{◌≡◌, Some};
ghost use Rattle.service_log.specs.Counts.{counts_after, counts_words};

use harvest_lattice::Harvest;
use harvester::WalkFault;
use std::fmt;

/// How many of an archive's walks ended in which way, in a round.
#[derive(Clone, Copy, Debug, PartialEq, Eq)]
pub struct Counts {
    pub walks: u64,
    /// Walks without a harvest.
    pub failed: u64,
    /// Harvests in part.
    pub parts: u64,
}

impl Counts {
    /// No walk ended.
    pub const NONE: Counts = Counts {
        walks: 0,
        failed: 0,
        parts: 0,
    };

    /// The counts with one more walk.
    pub fn with(self, walked: &Result<Harvest, WalkFault>) -> Counts
        ensures { result ≡ counts_after self walked.now }
    {
        let walks = self.walks.saturating_add(1);
        match walked {
            Ok(harvest) if harvest.is_part() => Counts {
                walks,
                failed: self.failed,
                parts: self.parts.saturating_add(1),
            },
            Ok(_) => Counts {
                walks,
                failed: self.failed,
                parts: self.parts,
            },
            Err(_) => Counts {
                walks,
                failed: self.failed.saturating_add(1),
                parts: self.parts,
            },
        }
    }
}

impl fmt::Display for Counts {
    ghost output = { λ counts. Some (counts_words counts) };

    fn fmt<W: fmt::Write>(&self, f: &mut fmt::Formatter<W>) -> fmt::Result {
        write!(f, "{} of {} walks failed", self.failed, self.walks)
    }
}
