//! What is done with what is known before the first gate answers.
ghost use Rattle.std.specs.Prelude.{◌≡◌, ◌&&◌, None, OnOk, is_some, true};
ghost use Rattle.std.specs.Arc.{arc_value};
ghost use Rattle.forgetting.specs.Renewing.{AreGone};
ghost use Rattle.round_course.specs.Asking as spec;

use forgetting::{BeginFault, Ways};
use harvest_workers::WalkRules;
use harvester::SocketRuntime;
use memento_time::Original;
use part_gates::NamesBase;
use published_index::Merger;
use round_standing::{Standing, book_listed, book_room};
use round_values::{Log, Stopwatch};
use service_ledger::{Begins, Ledger};
use service_log::Line;
use service_settings::Settings;
use service_threads::{ServeFault, Shared, Terms, forgets};
use std::alloc::AllocGlobal;
use std::io::Write;
use std::rt::Files;
use std::sync::Wait;

/// Reads what is withdrawn before the first gate answers, and forgets it. `Device` if it can't be read, and `NoMemory`
/// if what the snapshot has couldn't be published for lack of memory: nothing of it is to be shown.
pub(crate) fn begin_rule<R, P, L>(
    rt: &R,
    terms: &Terms<P>,
    shared: &Shared<P>,
    standing: &mut Standing,
    ledger: &mut Ledger<P>,
    log: Log<L>,
) -> Result<(), ServeFault>
where
    R: SocketRuntime + Files,
    P: WalkRules + Begins + NamesBase,
    L: Write + Copy,
    requires base { (arc_value terms.now.settings).base ≡ P.base }
    requires keys { spec.forgets (arc_value terms.now.settings) ≡ true → is_some shared.now.keys ≡ true }
    requires new { standing.old.forgetting.withdrawn ≡ None }
    ensures gone { OnOk result (spec.forgets (arc_value terms.now.settings) ≡ true
        → AreGone standing.new.forgetting.withdrawn standing.new.forgetting.listed ledger.new.merger) }
    ensures read { OnOk result (spec.forgets (arc_value terms.now.settings) ≡ true
        → (is_some standing.new.forgetting.withdrawn && is_some standing.new.forgetting.listed) ≡ true) }
{
    let (true, Some(keys)) = (forgets(terms.settings()), shared.keys) else {
        return Ok(());
    };
    if ledger.merger().may_have_pending() {
        return Err(ServeFault::NoMemory);
    }
    let ways = Ways {
        rt,
        settings: terms.settings(),
        keys,
        slots: &shared.slots,
        watch: Stopwatch::start(rt),
        log,
    };
    match ledger.begin(&mut standing.forgetting, &ways) {
        Ok(Some(forgot)) => log.tell(
            rt.alloc(),
            Line::Forgotten(forgot.told(ways.watch.now(rt).0)),
        ),
        Ok(None) => return Ok(()),
        Err(BeginFault::Unread) => return Err(ServeFault::Device),
        Err(BeginFault::NoMemory) => return Err(ServeFault::NoMemory),
    }
    standing.note_forgotten();
    if let Some(path) = &terms.settings().storing.snapshot {
        standing
            .keeping
            .keep(rt, path.as_str(), ledger.merger(), log);
    }
    Ok(())
}

/// Tells the book of a service that begins what it may take before the first round: rounds look after these originals,
/// and so much is published.
pub(crate) fn book_bounds<R: Wait + AllocGlobal, B: NamesBase>(
    rt: &R,
    shared: &Shared<B>,
    settings: &Settings,
    listed: &[Original],
    merger: &Merger,
) {
    let _ = book_room(rt, &shared.book, settings, listed.len(), merger);
    if let Some(keys) = shared.keys {
        let _ = book_listed(rt, &shared.book, listed, keys);
    }
}
