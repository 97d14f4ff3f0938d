//! Wishes are granted, and what their walks brought is taken in.
ghost use Rattle.std.specs.Prelude.{◌≡◌, ◌∷◌, ◌++◌, ◌≤◌, ℕ, [], Bool, IfOk, IfSome, IsSomeAnd, OnErr, OnOk, false, true};
ghost use Rattle.std.specs.Arc.{arc_value};
ghost use Rattle.wish_list.specs.Jobs.{begun_for};
ghost use Rattle.harvest_workers.specs.declared.errands.Errand.TheVariants.{Wish as OfWish};
ghost use Rattle.harvester.specs.Unkept.{Comes};
ghost use Rattle.round_values.specs.Revisions.{revision_of as revision_by_rule};
ghost use Rattle.service_ledger.specs.Leads.{IsWalked};
ghost use Rattle.round_walks.specs.Sparing.{spared_by};
ghost use Rattle.round_walks.specs.Fates.{Becomes, HasNoRoom, IsTakenIn, grounds_of};
ghost use Rattle.round_course.specs.Permits.{GaveWalk};
ghost use Rattle.round_course.specs.Publishes.{Publishes};

use crate::fates::Fate;
use crate::known::{is_shown, spared};
use crate::taking::{barred, note_walk};
use harvest_lattice::Harvest;
use harvest_schedule::{Permit, Verdict};
use harvest_workers::{Assignment, Errand, Opened, WalkRules};
use harvester::{SocketRuntime, WalkFault};
use memento_time::{NoMemory, Original};
use original_list::spellings_of;
use part_gates::NamesBase;
use round_course::Course;
use round_values::{Millis, Second, WishJob, answer_to, is_kept, second_now};
use service_ledger::Begins;
use service_log::Line;
use service_status::WishCounts;
use service_threads::forgets;
use std::io::Write;
use std::rt::Files;
use wish_list::{Decision, Ended, MOST_WISHES, WishAnswer};
use wishing_gates::wished_at;

/// Grants each wish that waits, as far as there is memory.
pub fn grant_wishes<R, P, L>(course: &mut Course<'_, R, P, L>)
where
    R: SocketRuntime + Files,
    P: WalkRules + Begins + NamesBase,
    L: Write + Copy,
{
    for _ in 0..MOST_WISHES {
        let Some(original) = course.shared.book.grant(course.rt) else {
            return;
        };
        if begin_wish(course, &original).is_err() {
            course.shared.book.put_back(course.rt, &original);
            return;
        }
        course.console.show_wishes(WishCounts {
            granted: 1,
            ..WishCounts::NONE
        });
    }
}

/// Takes on a granted wish.
fn begin_wish<R, P, L>(
    course: &mut Course<'_, R, P, L>,
    original: &Original,
) -> Result<(), NoMemory>
where
    R: SocketRuntime + Files,
    P: WalkRules + Begins + NamesBase,
    L: Write + Copy,
    ensures ok { OnOk result ((second : ℕ) × (course.new.standing.desk.jobs.wishes.items
        ≡ course.old.standing.desk.jobs.wishes.items ++ begun_for original.now
        (spared_by (arc_value course.old.terms.now.settings) course.old.standing.forgetting.withdrawn
        course.old.ledger.now.merger original.now second) ∷ [])) }
    ensures err { OnErr result (course.new.standing.desk.jobs.wishes.items ≡ course.old.standing.desk.jobs.wishes.items) }
{
    let settings = course.settings();
    let second = second_now(course.rt);
    let alloc = course.rt.alloc();
    let spared = spared(
        alloc,
        settings,
        &course.standing.forgetting,
        course.ledger.merger(),
        original,
        second,
    )?;
    course.standing.desk.push(original.try_clone()?, &spared)?;
    let is_spelling = course.standing.desk.take_spelling(original);
    if settings.wishing.alike
        && !is_spelling
        && !is_all_withdrawn(course, original)
        && !is_shown(settings, course.ledger.merger(), original)
    {
        wish_spellings(course, original, second);
    }
    Ok(())
}

/// Whether all that archives have of an original is withdrawn. Where memory is refused it may be, and counts as
/// such.
fn is_all_withdrawn<R, P, L>(course: &Course<'_, R, P, L>, original: &Original) -> bool
where
    R: SocketRuntime + Files,
    P: WalkRules + Begins + NamesBase,
    L: Write + Copy,
{
    let settings = course.settings();
    let all = course.standing.is_all_withdrawn(settings, original);
    all.unwrap_or(true)
}

/// Wishes for the other spellings of an original of which nothing is shown. What is wished for so leads to no
/// further wishes.
fn wish_spellings<R, P, L>(course: &mut Course<'_, R, P, L>, original: &Original, second: Second)
where
    R: SocketRuntime + Files,
    P: WalkRules + Begins + NamesBase,
    L: Write + Copy,
    ensures { course.new.standing.desk.jobs ≡ course.old.standing.desk.jobs }
{
    let Ok(spellings) = spellings_of(course.rt.alloc(), original) else {
        return;
    };
    for spelling in spellings {
        let Ok(Some(noted)) = wished_at(course.rt.alloc(), spelling.as_bytes()) else {
            continue;
        };
        if is_shown(course.settings(), course.ledger.merger(), &spelling)
            || !course.standing.desk.add_spelling(&spelling)
        {
            continue;
        }
        if course.shared.book.note(noted, false, second.0) != Some(Decision::Added) {
            let _ = course.standing.desk.take_spelling(&spelling);
        }
    }
}

/// Hands out a job of a wish, by leave of the schedule to ask its archive now, by a hand that may be the last free
/// one. `None` if the schedule gives no leave, which the desk is told, or if the job can't be made: memory was
/// refused, or the URL is too long.
pub fn begin_wish_job<R, P, L>(
    course: &mut Course<'_, R, P, L>,
    job: &WishJob,
    is_last: bool,
) -> Option<Assignment<P>>
where
    R: SocketRuntime + Files,
    P: WalkRules + Begins + NamesBase,
    L: Write + Copy,
    ensures allowed { IfSome result (λ _. (now : ℕ)
        × GaveWalk job.now.archive now course.old.standing.schedule course.new.standing.schedule) }
    ensures errand { IfSome result (λ it. it.errand ≡ OfWish job.now.archive) }
    ensures original { IfSome result (λ it. it.job.original ≡ job.now.original) }
    ensures revision { IfSome result (λ it. (second : ℕ) × (it.job.revision
        ≡ revision_by_rule (arc_value course.old.terms.now.settings)
        (record { round = course.old.standing.begun.0; second = second }))) }
{
    let now = course.now();
    let schedule = &mut course.standing.schedule;
    let Some(permit) = schedule.begin_walk(job.archive, now.0, is_last) else {
        course.standing.desk.refuse(job.archive, now);
        return None;
    };
    course.standing.desk.ask(job);
    let Some(assignment) = assignment_of_wish(course, permit, job) else {
        note_unwalked_wish(course, job);
        return None;
    };
    Some(assignment)
}

/// The job of a wish, whose archive may be asked, to be handed out now.
fn assignment_of_wish<R, P, L>(
    course: &Course<'_, R, P, L>,
    permit: Permit,
    job: &WishJob,
) -> Option<Assignment<P>>
where
    R: SocketRuntime + Files,
    P: WalkRules + Begins + NamesBase,
    L: Write + Copy,
    requires { permit.archive ≡ job.now.archive }
    ensures errand { IfSome result (λ it. it.errand ≡ OfWish job.now.archive) }
    ensures original { IfSome result (λ it. it.job.original ≡ job.now.original) }
    ensures revision { IfSome result (λ it. (second : ℕ) × (it.job.revision
        ≡ revision_by_rule (arc_value course.now.terms.now.settings)
        (record { round = course.now.standing.begun.0; second = second }))) }
{
    let errand = Errand::Wish {
        archive: job.archive,
    };
    course.assignment(permit, errand, &job.original, second_now(course.rt))
}

/// Notes that a job of a wish couldn't be made.
fn note_unwalked_wish<R, P, L>(course: &mut Course<'_, R, P, L>, job: &WishJob)
where
    R: SocketRuntime + Files,
    P: WalkRules + Begins + NamesBase,
    L: Write + Copy,
{
    let now = course.now().0;
    let standing = &mut course.standing;
    let _ = standing
        .schedule
        .end_walk(job.archive, Verdict::Unknown, now);
    standing
        .desk
        .answer(&job.original, job.archive, WishAnswer::NoHarvest);
}

/// Takes in what came of a wish's walk. If the archive was busy, and is waited for, the job comes again.
pub(crate) fn accept_wish_walk<R, P, L>(
    course: &mut Course<'_, R, P, L>,
    archive: usize,
    opened: Opened,
)
where
    R: SocketRuntime + Files,
    P: WalkRules + Begins + NamesBase,
    L: Write + Copy,
    requires own { ∥ P.jobs opened.errand opened.job ∥₁ }
    requires comes { ∥ Comes P.answers P.faults opened.job opened.begun opened.result opened.asked ∥₁ }
    ensures { IsTakenIn opened.result (grounds_of (arc_value course.old.terms.now.settings)
        course.old.standing.forgetting true course.new.standing.forgetting)
        course.old.ledger.now.merger course.new.ledger.now.merger }
{
    let is_busy = note_walk(course, &opened).is_some();
    let Opened {
        errand: _,
        job,
        begun: _,
        result: walked,
        asked: _,
    } = opened;
    let answer = answer_to(&walked);
    let now = course.now();
    let is_taken = take_wished(course, walked, now);
    if is_busy
        && matches!(answer, WishAnswer::NoHarvest)
        && course.standing.walks_again(archive, &job.original, now)
    {
        return;
    }
    let answer = if is_taken {
        answer
    } else {
        WishAnswer::NoHarvest
    };
    course.standing.desk.answer(&job.original, archive, answer);
}

/// Takes in what a wish's walk brought. Returns whether that answers the wish, be it a failure: there was memory
/// and room for a harvest, and it wasn't barred.
fn take_wished<R, P, L>(
    course: &mut Course<'_, R, P, L>,
    walked: Result<Harvest, WalkFault>,
    now: Millis,
) -> bool
where
    R: SocketRuntime + Files,
    P: WalkRules + Begins + NamesBase,
    L: Write + Copy,
    requires { IfOk walked (λ harvest. ∥ IsWalked P.jobs P.answers P.faults harvest ∥₁) }
    ensures { IsTakenIn walked (grounds_of (arc_value course.old.terms.now.settings)
        course.old.standing.forgetting true course.new.standing.forgetting)
        course.old.ledger.now.merger course.new.ledger.now.merger }
{
    match walked {
        Ok(harvest) => accept_wished(course, harvest, now).is_answer(),
        Err(_) => {
            course.standing.desk.count_failed();
            true
        }
    }
}

/// Appends the harvest of a wish's walk, if it is kept. Returns what becomes of it.
fn accept_wished<R, P, L>(course: &mut Course<'_, R, P, L>, harvest: Harvest, now: Millis) -> Fate
where
    R: SocketRuntime + Files,
    P: WalkRules + Begins + NamesBase,
    L: Write + Copy,
    requires { ∥ IsWalked P.jobs P.answers P.faults harvest ∥₁ }
    ensures { Becomes result (grounds_of (arc_value course.old.terms.now.settings)
        course.old.standing.forgetting true course.new.standing.forgetting)
        harvest course.old.ledger.now.merger course.new.ledger.now.merger }
{
    if let Some(fate) = barred(course, &harvest) {
        return fate;
    }
    let is_shown = is_shown(
        course.settings(),
        course.ledger.merger(),
        harvest.original(),
    );
    if !is_kept(&harvest, is_shown) {
        return Fate::Empty;
    }
    if !has_room(course, &harvest) {
        return Fate::NoRoom;
    }
    match course.ledger.append_walked(harvest) {
        Ok(()) => {
            course.standing.desk.add_pending(now);
            Fate::Appended
        }
        Err(_) => {
            course.standing.notes.add_unkept();
            Fate::NoMemory
        }
    }
}

/// Whether there is room for a wish's harvest. One for which there is none is counted.
pub(crate) fn has_room<R, P, L>(course: &mut Course<'_, R, P, L>, harvest: &Harvest) -> bool
where
    R: SocketRuntime + Files,
    P: WalkRules + Begins + NamesBase,
    L: Write + Copy,
    ensures room { result ≡ false → HasNoRoom (grounds_of (arc_value course.old.terms.now.settings)
        course.old.standing.forgetting true course.new.standing.forgetting) harvest.now }
    ensures withdrawn { course.new.standing.forgetting.withdrawn ≡ course.old.standing.forgetting.withdrawn }
    ensures ledger { course.new.ledger.now.merger ≡ course.old.ledger.now.merger }
    ensures terms { course.new.terms.now.settings ≡ course.old.terms.now.settings }
{
    if !forgets(course.settings()) {
        return true;
    }
    let (settings, now) = (course.settings(), course.now());
    let has_room = course
        .standing
        .forgetting
        .has_room(settings, course.ledger.merger(), harvest, now);
    if has_room {
        return true;
    }
    course.standing.dropped = course.standing.dropped.saturating_add(1);
    false
}

/// Publishes what wishes brought, where that is due, ends wishes that are over, and logs them.
pub fn tend_wishes<R, P, L>(course: &mut Course<'_, R, P, L>)
where
    R: SocketRuntime + Files,
    P: WalkRules + Begins + NamesBase,
    L: Write + Copy,
{
    if !course.shared.book.is_open() {
        return;
    }
    publish_wished(course);
    end_wishes(course);
    let now = course.now();
    if let Some(counts) = course.standing.desk.take_counts(now) {
        course.console.log_line(Line::Wishes(counts));
    }
}

/// Publishes what wishes brought, where that is due.
fn publish_wished<R, P, L>(course: &mut Course<'_, R, P, L>)
where
    R: SocketRuntime + Files,
    P: WalkRules + Begins + NamesBase,
    L: Write + Copy,
    ensures { (now : ℕ) × (IsSomeAnd course.old.standing.desk.due (λ due. due.0 ≤ now) → (published : Bool)
        × Publishes published course.old.ledger.now.merger course.new.ledger.now.merger)
        × ((¬ IsSomeAnd course.old.standing.desk.due (λ due. due.0 ≤ now))
        → course.new.ledger.now.merger ≡ course.old.ledger.now.merger) }
{
    let now = course.now();
    if course.standing.desk.is_due(now) {
        course.publish();
    }
}

/// Ends the wishes that are over.
fn end_wishes<R, P, L>(course: &mut Course<'_, R, P, L>)
where
    R: SocketRuntime + Files,
    P: WalkRules + Begins + NamesBase,
    L: Write + Copy,
{
    for _ in 0..MOST_WISHES {
        let Some(ended) = course.standing.desk.take_ended() else {
            return;
        };
        end_wish(course, &ended);
    }
}

/// Tells the book that a wish is over.
fn end_wish<R, P, L>(course: &mut Course<'_, R, P, L>, ended: &Ended)
where
    R: SocketRuntime + Files,
    P: WalkRules + Begins + NamesBase,
    L: Write + Copy,
{
    let (settings, original) = (course.settings(), &ended.original);
    let is_found = ended.outcome.is_found || is_shown(settings, course.ledger.merger(), original);
    let mut outcome = ended.outcome;
    if is_all_withdrawn(course, original) {
        // It may be lifted soon.
        outcome.is_whole = false;
    }
    let second = second_now(course.rt).0;
    course
        .shared
        .book
        .end(course.rt, original, is_found, outcome, second);
    course.standing.desk.count(is_found);
    course.console.show_wishes(WishCounts {
        ended: 1,
        ..WishCounts::NONE
    });
}
