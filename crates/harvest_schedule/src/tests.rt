use crate::{Limits, Mood, Pace, Schedule, Turn, Verdict};
use std::test::Fail;

const LIMITS: Limits = Limits {
    tolerance: Some(2),
    pause: 100,
};

fn turn(archive: usize, original: usize) -> Turn {
    Turn { archive, original }
}

#[test]
fn archives_take_turns_in_each_round(rt: HostRuntime) -> Result<(), Fail> {
    let pace = Pace {
        at_once: 1,
        every: 0,
    };
    let mut schedule = Schedule::new(rt.alloc(), LIMITS, &[pace, pace], 2)?;
    assert_eq!(rt; schedule.offer(5), Some(turn(0, 0)));
    assert!(rt; schedule.hand_out(turn(0, 0), 5).is_some());
    assert!(rt;
        schedule.hand_out(turn(0, 0), 5).is_none(),
        "handed out already"
    );
    assert_eq!(rt; schedule.offer(5), Some(turn(1, 0)));
    assert!(rt; schedule.pass_over(turn(1, 0)));
    assert!(rt; !schedule.pass_over(turn(1, 0)), "passed over already");
    assert_eq!(rt; schedule.offer(5), Some(turn(1, 1)));
    assert!(rt; schedule.hand_out(turn(1, 1), 5).is_some());
    assert_eq!(rt; schedule.offer(5), None);
    assert!(rt; !schedule.begin(2), "jobs are out");
    assert!(rt;
        schedule.done(turn(0, 0), Verdict::Answered, 4),
        "a clock may go back"
    );
    assert!(rt; !schedule.done(turn(0, 0), Verdict::Answered, 4), "not out");
    assert!(rt; schedule.done(turn(1, 1), Verdict::Answered, 6));
    assert_eq!(rt;
        (schedule.left(0), schedule.left(1), schedule.left(2)),
        (1, 0, 0)
    );
    assert!(rt; !schedule.is_over(6));
    assert!(rt; schedule.pass_over(turn(0, 1)));
    assert!(rt; schedule.is_over(6));
    assert!(rt; schedule.begin(1));
    assert_eq!(rt;
        (schedule.left(0), schedule.offer(6)),
        (1, Some(turn(0, 0)))
    );
    Ok(())
}

#[test]
fn busy_archives_are_put_aside_and_dormant_ones_probed(rt: HostRuntime) -> Result<(), Fail> {
    let pace = Pace {
        at_once: 2,
        every: 0,
    };
    let mut schedule = Schedule::new(rt.alloc(), LIMITS, &[pace], 3)?;
    assert!(rt; schedule.hand_out(turn(0, 0), 0).is_some());
    assert!(rt; schedule.hand_out(turn(0, 1), 0).is_some());
    assert!(rt; schedule.done(turn(0, 1), Verdict::Busy { until: 50 }, 1));
    assert!(rt; schedule.done(turn(0, 0), Verdict::Busy { until: 60 }, 2));
    assert_eq!(rt;
        schedule.mood(0),
        Some(Mood::Aside {
            until: 60,
            failed: 1
        })
    );
    assert_eq!(rt;
        (schedule.offer(59), schedule.next_time(2), schedule.left(0)),
        (None, Some(60), 3)
    );
    assert_eq!(rt; schedule.offer(60), Some(turn(0, 1)));
    assert!(rt; schedule.hand_out(turn(0, 1), 60).is_some());
    assert_eq!(rt;
        (schedule.offer(900), schedule.mood(0)),
        (None, Some(Mood::Tried { failed: 1 })),
        "one walk goes first"
    );
    assert!(rt; !schedule.is_dormant(0));
    assert!(rt; schedule.done(turn(0, 1), Verdict::Failed, 61));
    assert_eq!(rt;
        schedule.mood(0),
        Some(Mood::Dormant {
            until: 161,
            named: 0
        })
    );
    assert!(rt; schedule.is_dormant(0));
    assert!(rt; schedule.is_over(160));
    assert!(rt; !schedule.is_over(161));
    assert!(rt; schedule.hand_out(turn(0, 0), 161).is_some());
    assert_eq!(rt;
        (schedule.offer(900), schedule.next_time(161)),
        (None, None),
        "one probe alone"
    );
    assert!(rt; schedule.done(turn(0, 0), Verdict::Unknown, 170));
    assert_eq!(rt;
        schedule.mood(0),
        Some(Mood::Dormant {
            until: 270,
            named: 0
        })
    );
    Ok(())
}

#[test]
fn answers_of_earlier_walks_wake_no_busy_archive(rt: HostRuntime) -> Result<(), Fail> {
    let pace = Pace {
        at_once: 4,
        every: 0,
    };
    let mut schedule = Schedule::new(rt.alloc(), LIMITS, &[pace], 9)?;
    for original in 0..4 {
        assert!(rt; schedule.hand_out(turn(0, original), 0).is_some());
    }
    assert!(rt; schedule.done(turn(0, 0), Verdict::Busy { until: 50 }, 1));
    assert!(rt; schedule.done(turn(0, 1), Verdict::Answered, 2));
    assert_eq!(rt;
        (schedule.offer(49), schedule.offer(50)),
        (None, Some(turn(0, 0))),
        "it is left alone until its time"
    );
    assert!(rt; schedule.hand_out(turn(0, 0), 50).is_some());
    assert!(rt; schedule.done(turn(0, 0), Verdict::Unknown, 51));
    assert!(rt; schedule.hand_out(turn(0, 4), 52).is_some());
    assert_eq!(rt; schedule.offer(52), None, "it is tried anew");
    assert!(rt; schedule.done(turn(0, 4), Verdict::Answered, 53));
    assert_eq!(rt; schedule.mood(0), Some(Mood::Awake { failed: 0 }));
    assert!(rt; schedule.hand_out(turn(0, 5), 54).is_some());
    assert!(rt; schedule.hand_out(turn(0, 6), 54).is_some());
    Ok(())
}

#[test]
fn a_dormant_archive_that_answers_is_left_alone_until_the_time_it_named(
    rt: HostRuntime,
) -> Result<(), Fail> {
    let pace = Pace {
        at_once: 3,
        every: 0,
    };
    let mut schedule = Schedule::new(rt.alloc(), LIMITS, &[pace], 9)?;
    for original in 0..3 {
        assert!(rt; schedule.hand_out(turn(0, original), 0).is_some());
    }
    assert!(rt; schedule.done(turn(0, 0), Verdict::Failed, 1));
    assert!(rt; schedule.done(turn(0, 1), Verdict::Busy { until: 40 }, 2));
    assert_eq!(rt;
        schedule.mood(0),
        Some(Mood::Dormant {
            until: 102,
            named: 40
        })
    );
    assert!(rt; schedule.done(turn(0, 2), Verdict::Answered, 3));
    assert_eq!(rt;
        (schedule.offer(39), schedule.next_time(3)),
        (None, Some(40))
    );
    assert_eq!(rt; schedule.offer(40), Some(turn(0, 1)));
    Ok(())
}

#[test]
fn walks_beyond_the_list_keep_to_the_pace(rt: HostRuntime) -> Result<(), Fail> {
    let pace = Pace {
        at_once: 2,
        every: 10,
    };
    let mut schedule = Schedule::new(rt.alloc(), LIMITS, &[pace], 3)?;
    assert!(rt; schedule.begin_walk(0, 100, false).is_some());
    assert!(rt; schedule.begin_walk(0, 109, false).is_none(), "too early");
    assert_eq!(rt;
        (schedule.offer(109), schedule.next_time(100)),
        (None, Some(110))
    );
    assert!(rt; schedule.hand_out(turn(0, 0), 110).is_some());
    assert!(rt; schedule.begin_walk(0, 500, false).is_none(), "two are out");
    assert!(rt; schedule.end_walk(0, Verdict::Answered, 200));
    assert!(rt;
        !schedule.end_walk(0, Verdict::Answered, 200),
        "none is out"
    );
    assert!(rt;
        schedule.begin_walk(0, 209, false).is_none(),
        "too early after the end of a walk"
    );
    assert!(rt; schedule.begin_walk(0, 210, false).is_some());
    assert!(rt;
        schedule.begin_walk(1, 210, false).is_none(),
        "no such archive"
    );
    Ok(())
}

#[test]
fn an_answer_ends_a_row_of_failures(rt: HostRuntime) -> Result<(), Fail> {
    let pace = Pace {
        at_once: 3,
        every: 0,
    };
    let mut schedule = Schedule::new(rt.alloc(), LIMITS, &[pace], 9)?;
    for original in 0..3 {
        assert!(rt; schedule.hand_out(turn(0, original), 0).is_some());
    }
    assert!(rt; schedule.done(turn(0, 0), Verdict::Busy { until: 50 }, 1));
    assert!(rt; schedule.done(turn(0, 1), Verdict::Answered, 2));
    assert!(rt; schedule.done(turn(0, 2), Verdict::There, 3));
    assert_eq!(rt;
        schedule.mood(0),
        Some(Mood::Aside {
            until: 50,
            failed: 0
        })
    );
    assert!(rt; schedule.hand_out(turn(0, 0), 50).is_some());
    assert!(rt; schedule.done(turn(0, 0), Verdict::Failed, 51));
    assert_eq!(rt; schedule.mood(0), Some(Mood::Awake { failed: 1 }));
    assert!(rt; schedule.begin_walk(0, 52, false).is_some());
    assert!(rt; schedule.end_walk(0, Verdict::There, 53));
    assert_eq!(rt;
        schedule.mood(0),
        Some(Mood::Awake { failed: 1 }),
        "the row stays"
    );
    Ok(())
}

#[test]
fn a_probe_that_shows_that_an_archive_is_there_wakes_it(rt: HostRuntime) -> Result<(), Fail> {
    let pace = Pace {
        at_once: 1,
        every: 0,
    };
    let mut schedule = Schedule::new(rt.alloc(), LIMITS, &[pace], 9)?;
    for original in 0..2 {
        assert!(rt; schedule.hand_out(turn(0, original), 0).is_some());
        assert!(rt; schedule.done(turn(0, original), Verdict::Failed, 1));
    }
    assert!(rt; schedule.is_dormant(0));
    assert!(rt; schedule.begin_walk(0, 101, false).is_some());
    assert!(rt; schedule.end_walk(0, Verdict::There, 102));
    assert_eq!(rt; schedule.mood(0), Some(Mood::Awake { failed: 2 }));
    assert!(rt; schedule.hand_out(turn(0, 2), 103).is_some());
    assert!(rt; schedule.done(turn(0, 2), Verdict::Failed, 104));
    assert!(rt; schedule.is_dormant(0), "one failure more");
    assert!(rt; schedule.begin_walk(0, 204, false).is_some());
    assert!(rt; schedule.end_walk(0, Verdict::Later { until: 300 }, 205));
    assert_eq!(rt;
        schedule.mood(0),
        Some(Mood::Aside {
            until: 300,
            failed: 2
        }),
        "it is there, and asks for patience"
    );
    Ok(())
}

#[test]
fn of_two_walks_one_at_most_is_beyond_the_list(rt: HostRuntime) -> Result<(), Fail> {
    let pace = Pace {
        at_once: 9,
        every: 0,
    };
    let mut schedule = Schedule::new(rt.alloc(), LIMITS, &[pace, pace], 2)?;
    assert!(rt; schedule.begin_walk(0, 1, false).is_some());
    assert!(rt;
        schedule.begin_walk(0, 1, false).is_none(),
        "its job goes next"
    );
    assert!(rt;
        schedule.begin_walk(1, 1, true).is_none(),
        "a job takes the last hand"
    );
    assert!(rt; schedule.hand_out(turn(1, 0), 1).is_some());
    assert!(rt;
        schedule.begin_walk(0, 1, false).is_none(),
        "the archive's own job goes next still"
    );
    assert!(rt; schedule.begin_walk(1, 1, false).is_some());
    assert!(rt; schedule.pass_over(turn(0, 0)));
    assert!(rt;
        schedule.begin_walk(0, 1, false).is_some(),
        "a job that isn't needed had its turn"
    );
    assert!(rt; schedule.hand_out(turn(0, 1), 1).is_some());
    assert!(rt; schedule.hand_out(turn(1, 1), 1).is_some());
    for _ in 0..3 {
        assert!(rt;
            schedule.begin_walk(0, 1, false).is_some(),
            "no job is left"
        );
    }
    Ok(())
}
