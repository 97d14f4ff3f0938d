//! Peers are pulled, and what they give is taken in.
ghost use Rattle.std.specs.Prelude.{◌≡◌, ℕ, IfOk, None, OnOk, Some, false, true};
ghost use Rattle.std.specs.Arc.{arc_value};
ghost use Rattle.std.specs.Option.{option_map_or};
ghost use Rattle.replica_exchange.specs.CursorRule.{end_of, fits};
ghost use Rattle.round_values.specs.Ahead as ahead;
ghost use Rattle.round_values.specs.Leads.{IsAskedFrom};
ghost use Rattle.round_values.specs.declared.leads.Lead.{Lead};
ghost use Rattle.round_standing.specs.Peers.{IsNotedAt, noted_of};
ghost use Rattle.round_course.specs.Asking as spec;
ghost use Rattle.round_course.specs.Asking.{held_for};
ghost use Rattle.outgoing_requests.specs.Pulls.{IsPulled};
ghost use Rattle.service_ledger.specs.Leads.{IsPart};
ghost use Rattle.round_pulls.specs.Moves.{IsUntaken, StayHeld, is_stale};

use crate::stepping::{accept_part, append_some, ask_peer, pull_request, steps_on, timely};
use harvest_workers::WalkRules;
use harvester::SocketRuntime;
use memento_time::Clean;
use outgoing_requests::{Patience, PullFault, Pulled};
use part_gates::NamesBase;
use published_index::TakenAs;
use replica_exchange::{Cursor, Delta, TakeFault};
use round_course::Course;
use round_values::{asked_from, follows, led_by, pull_end, second_now};
use service_ledger::Begins;
use service_log::PeerFault;
use service_status::PullEnd;
use service_threads::{PullAnswer, Pullers, forgets};
use std::io::Write;
use std::rt::Files;

/// Pulls each peer, one after the other, and logs those that bring nothing.
pub fn pull_all<R, P, L>(course: &mut Course<'_, R, P, L>)
where
    R: SocketRuntime + Files,
    P: WalkRules + Begins + NamesBase,
    L: Write + Copy,
{
    let settings = course.settings();
    let patience = Patience::of_seconds(settings.patience);
    for (number, peer) in (1..).zip(&settings.peers) {
        let taken = pull_one(course, number, peer, patience);
        course.console.show_pull(number, pull_end(&taken));
        if let Err(fault) = taken {
            course
                .console
                .log_peer(course.standing.number, peer.as_str(), fault);
        }
    }
}

/// Pulls one peer.
fn pull_one<R, P, L>(
    course: &mut Course<'_, R, P, L>,
    number: u64,
    peer: &Clean,
    patience: Patience,
) -> Result<TakenAs, PeerFault>
where
    R: SocketRuntime + Files,
    P: WalkRules + Begins + NamesBase,
    L: Write + Copy,
{
    let timing = course.settings().timing;
    if timing.ahead.is_some() || timing.parts.is_some() || forgets(course.settings()) {
        return pull_here(course, number, peer, patience);
    }
    course.ledger.pull(
        course.rt,
        &mut course.standing.round,
        number,
        peer,
        patience,
    )
}

/// Pulls one peer in the thread of the rounds, part by part if it gives parts.
fn pull_here<R, P, L>(
    course: &mut Course<'_, R, P, L>,
    number: u64,
    peer: &Clean,
    patience: Patience,
) -> Result<TakenAs, PeerFault>
where
    R: SocketRuntime + Files,
    P: WalkRules + Begins + NamesBase,
    L: Write + Copy,
{
    let begun = course.now();
    course.standing.peers.begin_pull(number, begun);
    let mut taken = pull_once(course, number, peer, patience)?;
    for _ in course.rt.forever() {
        if !steps_on(course, number) {
            return Ok(taken);
        }
        if pull_once(course, number, peer, patience)? == TakenAs::News {
            taken = TakenAs::News;
        }
    }
    unreachable!()
}

/// Asks a peer once, and takes in what it gives.
fn pull_once<R, P, L>(
    course: &mut Course<'_, R, P, L>,
    number: u64,
    peer: &Clean,
    patience: Patience,
) -> Result<TakenAs, PeerFault>
where
    R: SocketRuntime + Files,
    P: WalkRules + Begins + NamesBase,
    L: Write + Copy,
{
    let Some(request) = pull_request(course, number, peer) else {
        return Err(PeerFault::Take(TakeFault::NoMemory));
    };
    let PullAnswer { cursor, answer, .. } = request.pull(course.rt, patience);
    accept_answer(course, number, cursor, answer)
}

/// From which cursor the peer with this number is asked.
pub(crate) fn cursor_of<R, P, L>(course: &Course<'_, R, P, L>, peer: u64) -> Option<Cursor>
where
    R: SocketRuntime + Files,
    P: WalkRules + Begins + NamesBase,
    L: Write + Copy,
    ensures { (now : ℕ) × IsAskedFrom
        (held_for (spec.forgets (arc_value course.now.terms.now.settings)) course.now.standing.forgetting.cursors
        course.now.ledger.now.merger.cursors peer)
        (option_map_or (λ notes. notes.lead) (noted_of course.now.standing.peers.all.items peer) None) now result }
{
    let held = course.held(peer);
    asked_from(
        held,
        course.standing.peers.lead(peer),
        second_now(course.rt),
    )
}

/// Has each peer pulled that isn't being pulled.
pub fn ask_peers<R, P, L>(course: &mut Course<'_, R, P, L>, pullers: &Pullers)
where
    R: SocketRuntime + Files,
    P: WalkRules + Begins + NamesBase,
    L: Write + Copy,
{
    if !pullers.are_some() {
        return;
    }
    let now = course.now();
    let peers = course.settings().peers.len() as u64;
    for peer in 1..=peers {
        if !course.standing.peers.is_pulled(peer) {
            course.standing.peers.begin_pull(peer, now);
            ask_peer(course, pullers, peer);
        }
    }
}

/// Takes in what a peer gave, and asks it for the next part, if it gave one. The answer to what the peer no longer has
/// to be asked for isn't taken.
pub fn accept_pull<R, P, L>(course: &mut Course<'_, R, P, L>, pullers: &Pullers, answer: PullAnswer)
where
    R: SocketRuntime + Files,
    P: WalkRules + Begins + NamesBase,
    L: Write + Copy,
    ensures stale { is_stale course.old.standing.peers answer.peer ≡ true
        → IsUntaken course.old.standing course.old.ledger.now.merger course.new.standing course.new.ledger.now.merger }
{
    let peer = answer.peer;
    if !take_in(course, answer) {
        return;
    }
    if steps_on(course, peer) {
        ask_peer(course, pullers, peer);
    }
}

/// Takes in what a peer gave, and logs, once in a round, if it gave nothing. A pull in parts counts once. Returns
/// whether something was taken. The answer to what the peer no longer has to be asked for isn't taken.
fn take_in<R, P, L>(course: &mut Course<'_, R, P, L>, answer: PullAnswer) -> bool
where
    R: SocketRuntime + Files,
    P: WalkRules + Begins + NamesBase,
    L: Write + Copy,
    ensures answer { is_stale course.old.standing.peers answer.peer ≡ true → result ≡ false }
    ensures stale { is_stale course.old.standing.peers answer.peer ≡ true
        → IsUntaken course.old.standing course.old.ledger.now.merger course.new.standing course.new.ledger.now.merger }
{
    let PullAnswer {
        peer,
        base,
        cursor,
        answer,
    } = answer;
    let is_stale = course.standing.peers.is_stale(peer);
    course.standing.peers.set_pulled(peer, false);
    if is_stale {
        return false;
    }
    let taken = accept_answer(course, peer, cursor, answer);
    let is_taken = taken.is_ok();
    if matches!(taken, Ok(TakenAs::News)) {
        course.standing.peers.note_news(peer);
    }
    if !is_taken || course.standing.peers.walking(peer).is_none() {
        let has_news = is_taken && course.standing.peers.has_news(peer);
        let end = if has_news {
            PullEnd::News
        } else {
            pull_end(&taken)
        };
        course.console.show_pull(peer, end);
    }
    if let Err(fault) = taken {
        if course.standing.notes.tells_peer(peer) {
            course
                .console
                .log_peer(course.standing.number, base.as_str(), fault);
        }
    }
    is_taken
}

/// Takes the delta that a peer gave when it was asked from this cursor, or the part of one, if it gave one.
fn accept_answer<R, P, L>(
    course: &mut Course<'_, R, P, L>,
    peer: u64,
    asked: Option<Cursor>,
    answer: Result<Pulled, PullFault>,
) -> Result<TakenAs, PeerFault>
where
    R: SocketRuntime + Files,
    P: WalkRules + Begins + NamesBase,
    L: Write + Copy,
    requires { ∥ IfOk answer IsPulled ∥₁ }
{
    match answer {
        Ok(Pulled::Whole(delta)) => {
            course.standing.peers.note_whole(peer);
            let delta = course.sift(peer, delta)?;
            accept_kept(course, peer, asked, delta, false)
        }
        Ok(Pulled::InPart(part)) => accept_part(course, peer, asked, part),
        Err(fault) => Err(PeerFault::Pull(fault)),
    }
}

/// Takes what is kept of a delta that was asked for from this cursor, of whose parts before something was left out
/// or not.
pub(crate) fn accept_kept<R, P, L>(
    course: &mut Course<'_, R, P, L>,
    peer: u64,
    asked: Option<Cursor>,
    delta: Delta,
    left_out: bool,
) -> Result<TakenAs, PeerFault>
where
    R: SocketRuntime + Files,
    P: WalkRules + Begins + NamesBase,
    L: Write + Copy,
    requires { ∥ IsPart delta ∥₁ }
{
    if course.settings().timing.ahead.is_some() {
        accept_timely(course, peer, asked, delta, left_out)
    } else {
        accept_whole(course, peer, delta)
    }
}

/// Takes all of a delta. A round that pulls at its end appends it, whatever it brings.
fn accept_whole<R, P, L>(
    course: &mut Course<'_, R, P, L>,
    peer: u64,
    delta: Delta,
) -> Result<TakenAs, PeerFault>
where
    R: SocketRuntime + Files,
    P: WalkRules + Begins + NamesBase,
    L: Write + Copy,
    requires { ∥ IsPart delta ∥₁ }
{
    if forgets(course.settings()) {
        let standing = &mut course.standing;
        return course
            .ledger
            .take_kept(&mut standing.forgetting, &mut standing.round, peer, delta);
    }
    let is_periodic = course.settings().timing.pull.is_some();
    let round = &mut course.standing.round;
    if is_periodic {
        course.ledger.take_delta(round, peer, &delta)
    } else {
        course.ledger.append_delta(round, peer, &delta)
    }
}

/// Appends what isn't ahead of the clock of a delta that was asked for from this cursor, and counts what is. The
/// held cursor moves if that is all of the delta, nothing was left out before, and the delta follows on it.
fn accept_timely<R, P, L>(
    course: &mut Course<'_, R, P, L>,
    peer: u64,
    asked: Option<Cursor>,
    delta: Delta,
    left_out: bool,
) -> Result<TakenAs, PeerFault>
where
    R: SocketRuntime + Files,
    P: WalkRules + Begins + NamesBase,
    L: Write + Copy,
    requires { ∥ IsPart delta ∥₁ }
    ensures before { left_out ≡ true
        → StayHeld course.old.standing.forgetting course.old.ledger.now.merger
        course.new.standing.forgetting course.new.ledger.now.merger }
    ensures ahead { (now : ℕ) × ((¬ (ahead.left_out
        (ahead.last_taken (arc_value course.old.terms.now.settings).timing.ahead now) delta.state ≡ 0))
        → StayHeld course.old.standing.forgetting course.old.ledger.now.merger
        course.new.standing.forgetting course.new.ledger.now.merger) }
    ensures gap { fits (held_for (spec.forgets (arc_value course.old.terms.now.settings))
        course.old.standing.forgetting.cursors course.old.ledger.now.merger.cursors peer) delta ≡ false
        → StayHeld course.old.standing.forgetting course.old.ledger.now.merger
        course.new.standing.forgetting course.new.ledger.now.merger }
{
    let (delta, ahead) = timely(course, delta)?;
    if !left_out && ahead == 0 && follows(course.held(peer), &delta) {
        course.standing.peers.set_lead(peer, None);
        return accept_whole(course, peer, delta);
    }
    accept_some(course, peer, asked, delta)
}

/// Appends what was taken of a delta that was asked for from this cursor. The held cursor stays, and the peer is
/// asked from the delta's end.
fn accept_some<R, P, L>(
    course: &mut Course<'_, R, P, L>,
    peer: u64,
    asked: Option<Cursor>,
    delta: Delta,
) -> Result<TakenAs, PeerFault>
where
    R: SocketRuntime + Files,
    P: WalkRules + Begins + NamesBase,
    L: Write + Copy,
    requires { ∥ IsPart delta ∥₁ }
    ensures fits { OnOk result (fits asked delta ≡ true) }
    ensures lead { OnOk result ((lead : Lead) × (lead.cursor ≡ end_of delta)
        × IsNotedAt peer (λ notes. record notes { lead = Some lead })
        course.old.standing.peers.all.items course.new.standing.peers.all.items) }
    ensures held { StayHeld course.old.standing.forgetting course.old.ledger.now.merger
        course.new.standing.forgetting course.new.ledger.now.merger }
{
    if !follows(asked, &delta) {
        return Err(PeerFault::Take(TakeFault::Gap { held: asked }));
    }
    let now = second_now(course.rt);
    let held = course.held(peer);
    let lead = led_by(asked, held, course.standing.peers.lead(peer), &delta, now);
    let taken = append_some(course, delta)?;
    course.standing.peers.set_lead(peer, Some(lead));
    Ok(taken)
}
