use crate::{Errand, verdict_of};
use harvest_lattice::Harvest;
use harvest_schedule::{Turn, Verdict};
use harvester::{FetchFault, WalkFault};
use std::test::Fail;

const JOB: Errand = Errand::Round(Turn {
    archive: 0,
    original: 0,
});

const WISH: Errand = Errand::Wish { archive: 0 };

/// What a walk that gave no harvest tells, for a job of a round and for a wish.
fn told(fault: WalkFault) -> (Verdict, Verdict) {
    let walked: Result<Harvest, WalkFault> = Err(fault);
    (
        verdict_of(JOB, &walked, None, 5_000),
        verdict_of(WISH, &walked, None, 5_000),
    )
}

#[test]
fn an_answer_shows_that_an_archive_is_there(rt: HostRuntime) -> Result<(), Fail> {
    for status in [300, 301, 400, 403, 410, 414, 451, 499] {
        assert_eq!(rt;
            told(WalkFault::Status(status)),
            (Verdict::There, Verdict::There)
        );
    }
    for status in [408, 429, 500, 502, 503, 504, 599] {
        assert_eq!(rt;
            told(WalkFault::Status(status)),
            (Verdict::Failed, Verdict::There)
        );
    }
    assert_eq!(rt;
        told(WalkFault::Fetch(FetchFault::Broken)),
        (Verdict::Failed, Verdict::There)
    );
    for (fault, verdict) in [
        (WalkFault::Fetch(FetchFault::Failed), Verdict::Failed),
        (WalkFault::Fetch(FetchFault::TooLong), Verdict::There),
        (WalkFault::Encoded, Verdict::There),
        (WalkFault::TooManyPages, Verdict::Answered),
        (WalkFault::TooManyMementos, Verdict::Answered),
        (WalkFault::NoMemory, Verdict::Unknown),
    ] {
        assert_eq!(rt; told(fault), (verdict, verdict));
    }
    Ok(())
}

#[test]
fn an_archive_that_asks_to_be_left_alone_is_busy(rt: HostRuntime) -> Result<(), Fail> {
    let walked: Result<Harvest, WalkFault> = Err(WalkFault::Status(429));
    for (seconds, until) in [(0, 6_000), (1, 6_000), (2, 7_000), (u64::MAX, u64::MAX)] {
        assert_eq!(rt;
            verdict_of(JOB, &walked, Some(seconds), 5_000),
            Verdict::Busy { until }
        );
        assert_eq!(rt;
            verdict_of(WISH, &walked, Some(seconds), 5_000),
            Verdict::Later { until }
        );
    }
    Ok(())
}
