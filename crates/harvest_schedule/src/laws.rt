//! Laws for readers. These functions do nothing when they run.
ghost use Rattle.harvest_schedule.specs.Rows.{AllAsleep, AllAwake, AllThere};
ghost use Rattle.harvest_schedule.specs.Runs.{AllCounted, AllFair, AllFew, AllHeeded, AllPaced, AllRest, AllTimed, AllTried, AllWait, EachIsLed};
ghost use Rattle.harvest_schedule.specs.Sharing.{AllGranted, AllServed};

/// By all calls of a schedule each archive stands where its own calls lead. So the laws below speak of one archive, and
/// hold of each.
pub fn archives_stand_alone()
    ensures { EachIsLed }
{}

/// In a round each job is handed out or passed over at most once, and once more for each time that the archive was
/// busy; jobs come in order; and as many walks end as begin, but for one that is out.
pub fn rounds_are_fair()
    ensures { AllFair }
{}

/// At the end of a round each job was passed over or walked to an end, just once, or its archive is dormant.
pub fn what_is_left_is_dormant()
    ensures { AllRest }
{}

/// What is left of a round are its jobs without those that are done with and those that are out.
pub fn jobs_are_counted()
    ensures { AllCounted }
{}

/// No more walks are out than may be, those beyond the list included, and as many ended as began, but for those.
pub fn walks_are_few()
    ensures { AllFew }
{}

/// An archive isn't asked again within the span of its pace, after it was asked or a walk ended.
pub fn archives_are_paced()
    ensures { AllPaced }
{}

/// An archive that is dormant or put aside isn't asked before its time, unless an answer comes.
pub fn archives_wait()
    ensures { AllWait }
{}

/// An archive that was busy isn't asked before the time that it named, if the limits have a `tolerance`. Without one no
/// archive is waited for.
pub fn busy_archives_are_heeded()
    ensures { AllHeeded }
{}

/// An archive that was put aside or dormant is asked by one walk, and not again before a walk of it has ended.
pub fn one_walk_goes_first()
    ensures { AllTried }
{}

/// An archive is dormant only once `tolerance` walks have failed since it last answered, whatever it was when the
/// answer came. What shows that it is there is no failure.
pub fn few_failures_are_borne()
    ensures { AllAwake }
{}

/// An archive of which `tolerance` walks fail in a row is dormant for `pause`, and so it is if a probe fails.
pub fn failures_in_a_row_make_dormant()
    ensures { AllAsleep }
{}

/// What shows no more than that an archive is there makes none dormant, and wakes one of which a walk finds that out.
pub fn signs_make_no_archive_dormant()
    ensures { AllThere }
{}

/// No archive's job waits behind more than one wish's walk: while the archive has a job, one begins at most before a
/// job is handed out or passed over.
pub fn jobs_wait_for_one_wish()
    ensures { AllServed }
{}

/// A wish isn't refused for a round that has no job for the archive, nor where a job went before.
pub fn wishes_wait_for_one_job()
    ensures { AllGranted }
{}

/// The time that is waited for is the first at which a job of the archive may be handed out if nothing else happens.
pub fn times_are_exact()
    ensures { AllTimed }
{}
