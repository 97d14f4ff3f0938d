//! The parts of peers' deltas are asked for and taken in, one after the other.
ghost use Rattle.std.specs.Prelude.{◌≡◌, ℕ, IfOk, IfSome, None, false, option_map, true};
ghost use Rattle.std.specs.Arc.{arc_value};
ghost use Rattle.std.specs.Option.{option_map_or};
ghost use Rattle.delta_parts.specs.PartRule.{fits_part};
ghost use Rattle.round_values.specs.Ahead as ahead;
ghost use Rattle.round_values.specs.Leads.{IsAskedFrom};
ghost use Rattle.round_values.specs.Steps as steps;
ghost use Rattle.round_standing.specs.Peers.{noted_of};
ghost use Rattle.round_course.specs.Asking as spec;
ghost use Rattle.round_course.specs.Asking.{held_for};
ghost use Rattle.outgoing_requests.specs.Pulls.{IsPartBrought};
ghost use Rattle.service_ledger.specs.Leads.{IsPart};
ghost use Rattle.round_pulls.specs.Moves.{BeginsAnew, IsTimelyOf, StayHeld, walk_with};

use crate::pulling::{accept_kept, cursor_of};
use delta_parts::Part;
use harvest_workers::WalkRules;
use harvester::SocketRuntime;
use memento_time::Clean;
use part_gates::NamesBase;
use published_index::TakenAs;
use replica_exchange::{Cursor, Delta, TakeFault};
use round_course::Course;
use round_values::{Stepped, Walking, next_ask, step, take_timely};
use service_ledger::Begins;
use service_log::{PartFault, PeerFault};
use service_threads::{PullRequest, Pullers};
use std::io::Write;
use std::rt::Files;

/// For how many patiences a peer may give parts, one behind the other.
const PATIENCES: u64 = 10;

/// What the peer with this number and base is asked for. `None` if memory is refused.
pub(crate) fn pull_request<R, P, L>(
    course: &Course<'_, R, P, L>,
    peer: u64,
    base: &Clean,
) -> Option<PullRequest>
where
    R: SocketRuntime + Files,
    P: WalkRules + Begins + NamesBase,
    L: Write + Copy,
    ensures peer { IfSome result (λ it. (it.peer ≡ peer) × (it.base ≡ base.now)) }
    ensures cursor { IfSome result (λ it. (now : ℕ) × IsAskedFrom
        (held_for (spec.forgets (arc_value course.now.terms.now.settings)) course.now.standing.forgetting.cursors
        course.now.ledger.now.merger.cursors peer)
        (option_map_or (λ notes. notes.lead) (noted_of course.now.standing.peers.all.items peer) None) now it.cursor) }
    ensures ask { IfSome result (λ it. it.ask ≡ option_map (λ _. steps.next_ask it.cursor
        (option_map_or (λ notes. notes.walking) (noted_of course.now.standing.peers.all.items peer) None))
        (arc_value course.now.terms.now.settings).timing.parts) }
{
    let cursor = cursor_of(course, peer);
    let base = base.try_clone().ok()?;
    let ask = match course.settings().timing.parts {
        Some(_) => Some(next_ask(cursor, course.standing.peers.walking(peer)).ok()?),
        None => None,
    };
    Some(PullRequest {
        peer,
        base,
        cursor,
        ask,
    })
}

/// Whether the peer with this number is asked for the next part of its delta at once.
pub(crate) fn steps_on<R, P, L>(course: &Course<'_, R, P, L>, peer: u64) -> bool
where
    R: SocketRuntime + Files,
    P: WalkRules + Begins + NamesBase,
    L: Write + Copy,
{
    let patience = course.settings().patience.saturating_mul(1_000);
    let now = course.now();
    course
        .standing
        .peers
        .steps_on(peer, now, patience.saturating_mul(PATIENCES))
}

/// Has the peer with this number pulled, if it isn't being pulled.
pub(crate) fn ask_peer<R, P, L>(course: &mut Course<'_, R, P, L>, pullers: &Pullers, peer: u64)
where
    R: SocketRuntime + Files,
    P: WalkRules + Begins + NamesBase,
    L: Write + Copy,
{
    let settings = course.settings();
    for (number, base) in (1..).zip(&settings.peers) {
        if number == peer && !course.standing.peers.is_pulled(peer) {
            let is_pulled = match pull_request(course, peer, base) {
                Some(request) => pullers.ask(course.rt, request),
                None => false,
            };
            course.standing.peers.set_pulled(peer, is_pulled);
        }
    }
}

/// Takes in a part that a peer gave when it was asked with this cursor. If it isn't taken for lack of memory, the
/// same part is asked for again; for any other fault the walk over the parts begins anew.
pub(crate) fn accept_part<R, P, L>(
    course: &mut Course<'_, R, P, L>,
    peer: u64,
    asked: Option<Cursor>,
    part: Part,
) -> Result<TakenAs, PeerFault>
where
    R: SocketRuntime + Files,
    P: WalkRules + Begins + NamesBase,
    L: Write + Copy,
    requires { ∥ IsPartBrought part ∥₁ }
    ensures apart { fits_part asked (walk_with course.old.standing.peers peer) part ≡ false
        → BeginsAnew peer course.old.standing course.old.ledger.now.merger
        course.new.standing course.new.ledger.now.merger }
    ensures still { steps.is_still (walk_with course.old.standing.peers peer) part ≡ true
        → BeginsAnew peer course.old.standing course.old.ledger.now.merger
        course.new.standing course.new.ledger.now.merger }
{
    let stepped = match step(asked, course.standing.peers.walking(peer), part) {
        Ok(stepped) => stepped,
        Err(PartFault::NoMemory) => return Err(PeerFault::Part(PartFault::NoMemory)),
        Err(fault) => {
            course.standing.peers.set_walking(peer, None);
            return Err(PeerFault::Part(fault));
        }
    };
    let Stepped {
        delta,
        asked,
        left_out,
        next,
    } = stepped;
    let delta = course.sift(peer, delta)?;
    let taken = match next {
        Some(next) => accept_more(course, peer, delta, next)?,
        None => accept_last(course, peer, asked, delta, left_out)?,
    };
    let now = course.now();
    course.standing.peers.note_part(peer, now);
    course.console.show_part(peer);
    Ok(taken)
}

/// Appends what isn't ahead of the clock of a part behind which others follow, if some of it isn't published. No
/// cursor moves.
fn accept_more<R, P, L>(
    course: &mut Course<'_, R, P, L>,
    peer: u64,
    delta: Delta,
    next: Walking,
) -> Result<TakenAs, PeerFault>
where
    R: SocketRuntime + Files,
    P: WalkRules + Begins + NamesBase,
    L: Write + Copy,
    requires { ∥ IsPart delta ∥₁ }
    ensures { StayHeld course.old.standing.forgetting course.old.ledger.now.merger
        course.new.standing.forgetting course.new.ledger.now.merger }
{
    let (delta, left_out) = timely(course, delta)?;
    let taken = append_some(course, delta)?;
    let Walking {
        walk,
        asked,
        left_out: before,
    } = next;
    let walking = Walking {
        walk,
        asked,
        left_out: before || left_out > 0,
    };
    course.standing.peers.set_walking(peer, Some(walking));
    Ok(taken)
}

/// Takes the last part of a walk that began from this cursor, as a delta of as many merges as the walk tells of.
fn accept_last<R, P, L>(
    course: &mut Course<'_, R, P, L>,
    peer: u64,
    asked: Option<Cursor>,
    delta: Delta,
    left_out: bool,
) -> Result<TakenAs, PeerFault>
where
    R: SocketRuntime + Files,
    P: WalkRules + Begins + NamesBase,
    L: Write + Copy,
    requires { ∥ IsPart delta ∥₁ }
{
    let taken = accept_kept(course, peer, asked, delta, left_out);
    if !matches!(taken, Err(PeerFault::Take(TakeFault::NoMemory))) {
        course.standing.peers.set_walking(peer, None);
    }
    taken
}

/// What isn't ahead of the clock of a delta, and how many harvests are. These are counted.
pub(crate) fn timely<R, P, L>(
    course: &mut Course<'_, R, P, L>,
    delta: Delta,
) -> Result<(Delta, u64), PeerFault>
where
    R: SocketRuntime + Files,
    P: WalkRules + Begins + NamesBase,
    L: Write + Copy,
    requires { ∥ IsPart delta ∥₁ }
    ensures part { IfOk result (λ it. ∥ IsPart it.0 ∥₁) }
    ensures timely { IfOk result (λ it. (now : ℕ) × IsTimelyOf
        (ahead.last_taken (arc_value course.old.terms.now.settings).timing.ahead now) delta it) }
    ensures ledger { course.new.ledger.now.merger ≡ course.old.ledger.now.merger }
    ensures forgetting { course.new.standing.forgetting ≡ course.old.standing.forgetting }
    ensures terms { course.new.terms.now.settings ≡ course.old.terms.now.settings }
{
    let last = course.last_taken();
    let Delta {
        incarnation,
        start,
        end,
        state,
    } = delta;
    let Ok(taken) = take_timely(course.rt.alloc(), state, last) else {
        return Err(PeerFault::Take(TakeFault::NoMemory));
    };
    let left_out = taken.left_out;
    course.standing.left_out = course.standing.left_out.saturating_add(left_out);
    let delta = Delta {
        incarnation,
        start,
        end,
        state: taken.state,
    };
    Ok((delta, left_out))
}

/// Appends some of what a peer gave, unless all of it is published. No cursor moves.
pub(crate) fn append_some<R, P, L>(
    course: &mut Course<'_, R, P, L>,
    delta: Delta,
) -> Result<TakenAs, PeerFault>
where
    R: SocketRuntime + Files,
    P: WalkRules + Begins + NamesBase,
    L: Write + Copy,
    requires { ∥ IsPart delta ∥₁ }
    ensures peers { course.new.standing.peers ≡ course.old.standing.peers }
    ensures held { StayHeld course.old.standing.forgetting course.old.ledger.now.merger
        course.new.standing.forgetting course.new.ledger.now.merger }
{
    if delta.state.le(course.ledger.merger().published_state()) {
        return Ok(TakenAs::Known);
    }
    course.standing.forgetting.count_taken(&delta.state);
    course.ledger.take_some(&mut course.standing.round, delta)
}
