//! What a walk tells of its archive, by `harvest_workers`.
use harvest_lattice::Harvest;
use harvest_schedule::{Turn, Verdict};
use harvest_workers::{Errand, verdict_of};
use harvester::WalkFault;
use std::test::*;
use timemap_reader::PageFault;

const JOB: Errand = Errand::Round(Turn {
    archive: 0,
    original: 0,
});

const WISH: Errand = Errand::Wish { archive: 0 };

/// An archive whose page can't be read is there. That ends no row of failures, as a page does that can be read.
#[test]
fn a_page_that_cannot_be_read_shows_that_an_archive_is_there(rt: HostRuntime) {
    for fault in [PageFault::TooLong, PageFault::BadBase] {
        let walked: Result<Harvest, WalkFault> = Err(WalkFault::Page(fault));
        for errand in [JOB, WISH] {
            assert!(rt; verdict_of(errand, &walked, None, 5_000) == Verdict::There);
        }
    }
}
