//! What workers report is taken in.
ghost use Rattle.std.specs.Prelude.{◌≡◌, ℕ, Bool, IfSome, Result, false};
ghost use Rattle.std.specs.Arc.{arc_value};
ghost use Rattle.harvest_lattice.specs.Knowledge.{Harvested};
ghost use Rattle.harvester.specs.Unkept.{Comes};
ghost use Rattle.harvester.specs.declared.faults.WalkFault.{WalkFault};
ghost use Rattle.harvest_workers.specs.Verdicts.{verdict};
ghost use Rattle.round_standing.specs.Verdicts.{IsTold};
ghost use Rattle.service_ledger.specs.Leads.{IsWalked};
ghost use Rattle.round_walks.specs.Fates.{Becomes, IsTakenIn, grounds_of, is_wish};

use crate::fates::Fate;
use crate::granting::accept_wish_walk;
use crate::known::is_emptied;
use harvest_lattice::Harvest;
use harvest_schedule::{Mood, Turn};
use harvest_workers::{Assignment, Errand, Opened, WalkReport, WalkRules, verdict_of};
use harvester::SocketRuntime;
use part_gates::NamesBase;
use round_course::Course;
use round_standing::WalkShown;
use round_values::{Millis, Second, walk_end};
use service_ledger::Begins;
use service_settings::Settings;
use std::io::Write;
use std::rt::Files;

/// For how many seconds an archive is left alone that asked for it: an archive is only where it may be dormant, too.
fn heeded(settings: &Settings, asked: Option<u64>) -> Option<u64> {
    match settings.asking.tolerance {
        Some(_) => asked,
        None => None,
    }
}

/// Takes in what a worker reports: a harvest as it becomes, and without one nothing is appended.
pub fn accept_report<R, P, L>(course: &mut Course<'_, R, P, L>, report: WalkReport<P>)
where
    R: SocketRuntime + Files,
    P: WalkRules + Begins + NamesBase,
    L: Write + Copy,
    ensures { IsTakenIn report.result (grounds_of (arc_value course.old.terms.now.settings)
        course.old.standing.forgetting (is_wish report.errand) course.new.standing.forgetting)
        course.old.ledger.now.merger course.new.ledger.now.merger }
{
    let opened = report.open();
    match opened.errand {
        Errand::Round(turn) => {
            course.standing.end_out();
            accept_round_walk(course, turn, opened);
        }
        Errand::Wish { archive } => {
            course.standing.desk.end_out();
            accept_wish_walk(course, archive, opened);
        }
    }
}

/// Walks a job in this thread that is counted as out, and takes in what came of it.
pub fn walk_here<R, P, L>(course: &mut Course<'_, R, P, L>, assignment: Assignment<P>)
where
    R: SocketRuntime + Files,
    P: WalkRules + Begins + NamesBase,
    L: Write + Copy,
    ensures { (walked : Result Harvested WalkFault) × IsTakenIn walked
        (grounds_of (arc_value course.old.terms.now.settings)
        course.old.standing.forgetting (is_wish assignment.errand) course.new.standing.forgetting)
        course.old.ledger.now.merger course.new.ledger.now.merger }
{
    let report = course.terms.walk(course.rt, assignment);
    accept_report(course, report);
}

/// Notes in the schedule how a walk ended, shows it, and logs it. Returns for how many seconds its archive is left
/// alone, if it asked for that.
pub(crate) fn note_walk<R, P, L>(course: &mut Course<'_, R, P, L>, opened: &Opened) -> Option<u64>
where
    R: SocketRuntime + Files,
    P: WalkRules + Begins + NamesBase,
    L: Write + Copy,
    ensures told { (now : ℕ) × IsTold opened.now.errand (verdict opened.now.errand now result opened.now.result) now
        course.old.standing.schedule course.new.standing.schedule }
    ensures ledger { course.new.ledger.now.merger ≡ course.old.ledger.now.merger }
    ensures forgetting { course.new.standing.forgetting ≡ course.old.standing.forgetting }
    ensures terms { course.new.terms.now.settings ≡ course.old.terms.now.settings }
{
    let archive = opened.errand.archive();
    let asked = heeded(course.settings(), opened.asked);
    let before = course.standing.schedule.mood(archive);
    let now = course.now();
    let verdict = verdict_of(opened.errand, &opened.result, asked, now.0);
    course.standing.note_verdict(opened.errand, verdict, now);
    let walk = WalkShown {
        archive,
        end: walk_end(&opened.result, asked.is_some()),
        begun: Second(opened.begun),
        mood: course.standing.schedule.mood(archive),
    };
    course.console.show_walk(walk, now);
    log_mood(course, archive, before, now);
    asked
}

/// Logs, once each in a round, that an archive is dormant, and that it answers again; and, once each time, that it
/// asked to be left alone for long.
fn log_mood<R, P, L>(
    course: &mut Course<'_, R, P, L>,
    archive: usize,
    before: Option<Mood>,
    now: Millis,
)
where
    R: SocketRuntime + Files,
    P: WalkRules + Begins + NamesBase,
    L: Write + Copy,
    ensures standing { course.new.standing ≡ record course.old.standing { notes = course.new.standing.notes } }
    ensures ledger { course.new.ledger.now.merger ≡ course.old.ledger.now.merger }
    ensures terms { course.new.terms.now.settings ≡ course.old.terms.now.settings }
{
    let settings = course.settings();
    let round = course.standing.number;
    if let Some(matter) = course.standing.mood_matter(settings, archive, before) {
        course.console.log_archive(settings, round, archive, matter);
    }
    if let Some(matter) = course.standing.aside_matter(archive, before, now) {
        course.console.log_archive(settings, round, archive, matter);
    }
}

/// Notes how a job of the round ended. One whose archive asks to be left alone comes again, so it isn't counted.
fn note_job<R, P, L>(course: &mut Course<'_, R, P, L>, opened: &Opened)
where
    R: SocketRuntime + Files,
    P: WalkRules + Begins + NamesBase,
    L: Write + Copy,
    ensures ledger { course.new.ledger.now.merger ≡ course.old.ledger.now.merger }
    ensures forgetting { course.new.standing.forgetting ≡ course.old.standing.forgetting }
    ensures terms { course.new.terms.now.settings ≡ course.old.terms.now.settings }
{
    if note_walk(course, opened).is_none() {
        course.standing.round.add_job();
    }
}

/// Takes in what came of a job of the round.
fn accept_round_walk<R, P, L>(course: &mut Course<'_, R, P, L>, turn: Turn, opened: Opened)
where
    R: SocketRuntime + Files,
    P: WalkRules + Begins + NamesBase,
    L: Write + Copy,
    requires own { ∥ P.jobs opened.errand opened.job ∥₁ }
    requires comes { ∥ Comes P.answers P.faults opened.job opened.begun opened.result opened.asked ∥₁ }
    ensures { IsTakenIn opened.result (grounds_of (arc_value course.old.terms.now.settings)
        course.old.standing.forgetting false course.new.standing.forgetting)
        course.old.ledger.now.merger course.new.ledger.now.merger }
{
    note_job(course, &opened);
    let Opened {
        errand: _,
        job,
        begun: _,
        result: walked,
        asked: _,
    } = opened;
    course.standing.notes.add(turn.archive, &job.first, &walked);
    if let Ok(harvest) = walked {
        accept_harvest(course, turn, harvest);
    }
}

/// Appends the harvest of a walk, unless it is barred. Returns what becomes of it.
fn accept_harvest<R, P, L>(course: &mut Course<'_, R, P, L>, turn: Turn, harvest: Harvest) -> Fate
where
    R: SocketRuntime + Files,
    P: WalkRules + Begins + NamesBase,
    L: Write + Copy,
    requires { ∥ IsWalked P.jobs P.answers P.faults harvest ∥₁ }
    ensures { Becomes result (grounds_of (arc_value course.old.terms.now.settings)
        course.old.standing.forgetting false course.new.standing.forgetting)
        harvest course.old.ledger.now.merger course.new.ledger.now.merger }
{
    if let Some(fate) = barred(course, &harvest) {
        return fate;
    }
    if is_emptied(course.ledger.merger(), &harvest) {
        course.standing.notes.add_emptied(turn.archive);
    }
    match course.ledger.append_walked(harvest) {
        Ok(()) => {
            course.standing.round.add_harvest();
            Fate::Appended
        }
        Err(_) => {
            course.standing.notes.add_unkept();
            Fate::NoMemory
        }
    }
}

/// What becomes of a harvest that may not be taken: it is withdrawn, or too far ahead of the clock. It is counted
/// if it is ahead, or if memory is refused to tell whether it is withdrawn.
pub(crate) fn barred<R, P, L>(course: &mut Course<'_, R, P, L>, harvest: &Harvest) -> Option<Fate>
where
    R: SocketRuntime + Files,
    P: WalkRules + Begins + NamesBase,
    L: Write + Copy,
    ensures fate { (is_wished : Bool) → IfSome result (λ fate. Becomes fate
        (grounds_of (arc_value course.old.terms.now.settings)
        course.old.standing.forgetting is_wished course.new.standing.forgetting)
        harvest.now course.old.ledger.now.merger course.new.ledger.now.merger) }
    ensures ledger { course.new.ledger.now.merger ≡ course.old.ledger.now.merger }
    ensures forgetting { course.new.standing.forgetting ≡ course.old.standing.forgetting }
    ensures terms { course.new.terms.now.settings ≡ course.old.terms.now.settings }
{
    let forgetting = &course.standing.forgetting;
    match forgetting.has_withdrawn(harvest.archive(), harvest.original()) {
        Ok(true) => Some(Fate::Withdrawn),
        Ok(false) => barred_by_clock(course, harvest),
        Err(_) => {
            course.standing.notes.add_unkept();
            Some(Fate::NoMemory)
        }
    }
}

/// What becomes of a harvest that is too far ahead of the clock, which was set back since. It is counted.
fn barred_by_clock<R, P, L>(course: &mut Course<'_, R, P, L>, harvest: &Harvest) -> Option<Fate>
where
    R: SocketRuntime + Files,
    P: WalkRules + Begins + NamesBase,
    L: Write + Copy,
    ensures fate { (is_wished : Bool) → IfSome result (λ fate. Becomes fate
        (grounds_of (arc_value course.old.terms.now.settings)
        course.old.standing.forgetting is_wished course.new.standing.forgetting)
        harvest.now course.old.ledger.now.merger course.new.ledger.now.merger) }
    ensures ledger { course.new.ledger.now.merger ≡ course.old.ledger.now.merger }
    ensures forgetting { course.new.standing.forgetting ≡ course.old.standing.forgetting }
    ensures terms { course.new.terms.now.settings ≡ course.old.terms.now.settings }
{
    let last = course.last_taken();
    if course.standing.is_left_out(harvest, last) {
        Some(Fate::Ahead)
    } else {
        None
    }
}
