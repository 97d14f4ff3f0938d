//! What no contract says: that calls succeed where memory is there, that gates answer side by side, and that a gate is
//! closed once its merger is and not before.
ghost use Rattle.std.specs.Prelude.{◌≡◌, IfSome};

use anyhow::{Result, bail};
use harvest_lattice::State;
use knowledge_tests::makers::{get, harvest, location, merge};
use memento_index::Merge;
use published_index::{Gate, GateFault, Merger, Receipt, ask_both, open};
use std::alloc::Global;
use std::sync::Wait;
use std::sync::atomic::{AtomicU64, Ordering};
use std::thread::{self, join};
use std::time::{Clock, Duration};
use text_tests::makers::{FIRST_DAY, THIRD_DAY, mementos, service};
use timegate::{Reply, Request};
use timemap_writer::Service;

const FIRST: &[u8] = b"http://m.example/1";

const SECOND: &[u8] = b"http://m.example/2";

const ORIGINAL: &[u8] = b"http://a.example/";

fn first_merge(alloc: Global) -> Result<Merge> {
    merge(alloc, b"a1", ORIGINAL, 1, &[(FIRST_DAY, FIRST)])
}

fn second_merge(alloc: Global) -> Result<Merge> {
    merge(alloc, b"b1", ORIGINAL, 1, &[(THIRD_DAY, SECOND)])
}

fn timegate_request(alloc: Global) -> Result<Request> {
    get(alloc, b"/timegate/http://a.example/")
}

fn timemap_request(alloc: Global) -> Result<Request> {
    get(alloc, b"/timemap/link/http://a.example/")
}

/// What the TimeGate of http://a.example/ answers.
#[derive(Clone, Copy, Debug, PartialEq, Eq)]
enum Shown {
    /// 404.
    Nothing,
    /// 302 to the second memento, which is the later one.
    Second,
    /// Anything else.
    Other,
}

fn shown_by(reply: Result<Reply, GateFault>) -> Shown {
    match reply {
        Ok(reply) if reply.status == 404 => Shown::Nothing,
        Ok(reply) if reply.status == 302 && location(&reply) == Some(SECOND) => Shown::Second,
        _ => Shown::Other,
    }
}

/// Appends the merge and publishes it.
fn publish_merge<R: Wait>(rt: &R, merger: &mut Merger, merge: &Merge) -> Option<Receipt>
    ensures merger { merger.new.opening ≡ merger.old.opening }
    ensures receipt { IfSome result (λ told. told.opening ≡ merger.old.opening) }
{
    let appended = merger.append(merge);
    match merger.publish(rt) {
        Ok(receipt) => {
            if appended.is_err() {
                return None;
            }
            Some(receipt)
        }
        Err(_) => None,
    }
}

/// Learns the newer of two receipts first, and then the older.
fn ask_after_both(gate: &mut Gate, newer: Receipt, older: Receipt, request: &Request) -> Shown
    requires newer { newer.opening ≡ gate.old.opening }
    requires older { older.opening ≡ gate.old.opening }
{
    gate.learn(newer);
    gate.learn(older);
    shown_by(gate.answer(request))
}

#[test]
fn an_older_receipt_that_is_learnt_later_takes_nothing_away(rt: HostRuntime) -> Result<()> {
    let asked = timegate_request(rt.alloc())?;
    let (one, two) = (first_merge(rt.alloc())?, second_merge(rt.alloc())?);
    let (mut merger, mut gates) = open(&rt, rt.alloc(), service(rt.alloc())?, 1, 1)?;
    let older = publish_merge(&rt, &mut merger, &one);
    let newer = publish_merge(&rt, &mut merger, &two);
    let mut shown = Shown::Other;
    if let (Some(mut gate), Some(older), Some(newer)) = (gates.pop(), older, newer) {
        shown = ask_after_both(&mut gate, newer, older, &asked);
    }
    merger.close(&rt);
    assert!(rt; shown == Shown::Second);
    Ok(())
}

#[test]
fn a_gate_is_closed_once_its_merger_is_and_not_before(rt: HostRuntime) -> Result<()> {
    let asked = timegate_request(rt.alloc())?;
    let (mut merger, mut gates) = open(&rt, rt.alloc(), service(rt.alloc())?, 1, 1)?;
    let Some(mut gate) = gates.pop() else {
        merger.close(&rt);
        bail!("no gate");
    };
    let unpublished = shown_by(gate.answer(&asked));
    let published = merger.publish(&rt).is_ok();
    let before = shown_by(gate.answer(&asked));
    merger.close(&rt);
    let after = gate.answer(&asked).map(|reply| reply.status);
    assert!(rt; published && unpublished == Shown::Nothing && before == Shown::Nothing);
    assert!(rt; after == Err(GateFault::Closed));
    Ok(())
}

/// What is shown with a merge pending, once it is published, and then: the merger settles before each question.
fn ask_settled<R: Wait>(
    rt: &R,
    merger: &mut Merger,
    gate: &mut Gate,
    merge: &Merge,
    request: &Request,
) -> Result<(Shown, Shown, Shown)> {
    merger.append(merge)?;
    merger.settle(rt);
    let pending = shown_by(gate.answer(request));
    merger.publish(rt)?;
    merger.settle(rt);
    let published = shown_by(gate.answer(request));
    merger.settle(rt);
    Ok((pending, published, shown_by(gate.answer(request))))
}

#[test]
fn settling_shows_nothing_else(rt: HostRuntime) -> Result<()> {
    let asked = timegate_request(rt.alloc())?;
    let merge = second_merge(rt.alloc())?;
    let (mut merger, mut gates) = open(&rt, rt.alloc(), service(rt.alloc())?, 1, 1)?;
    let mut seen = None;
    if let Some(mut gate) = gates.pop() {
        seen = ask_settled(&rt, &mut merger, &mut gate, &merge, &asked).ok();
    }
    merger.close(&rt);
    assert!(rt; seen == Some((Shown::Nothing, Shown::Second, Shown::Second)));
    Ok(())
}

/// Sleeps until the flag is 1, for at most 10,000 sleeps of a millisecond, and says whether it came.
fn wait_for<R: Clock>(rt: &R, flag: &AtomicU64) -> bool {
    for _ in 0..10_000 {
        if flag.load(Ordering::SeqCst) == 1 {
            return true;
        }
        thread::sleep(rt, Duration::from_millis(1));
    }
    false
}

fn ask_and_flag(mut gate: Gate, request: &Request, flag: &AtomicU64) -> Shown {
    let shown = shown_by(gate.answer(request));
    flag.store(1, Ordering::SeqCst);
    shown
}

/// Stays in the entry until the other gate has its reply.
fn ask_and_stay<R: Clock>(
    rt: &R,
    mut gate: Gate,
    request: &Request,
    flag: &AtomicU64,
    came: &AtomicU64,
) -> Shown {
    let reply = gate.answer_then(request, || {
        if wait_for(rt, flag) {
            came.store(1, Ordering::SeqCst);
        }
    });
    shown_by(reply)
}

#[test]
fn a_gate_that_stays_in_its_entry_keeps_no_other_waiting(rt: HostRuntime) -> Result<()> {
    let asked = timegate_request(rt.alloc())?;
    let (merger, mut gates) = open(&rt, rt.alloc(), service(rt.alloc())?, 2, 1)?;
    let flag = AtomicU64::new(0);
    let came = AtomicU64::new(0);
    let mut seen = (Shown::Other, Shown::Other);
    if let (Some(second), Some(first)) = (gates.pop(), gates.pop()) {
        let request = &asked;
        seen = join(
            &rt,
            || ask_and_stay(&rt, first, request, &flag, &came),
            || ask_and_flag(second, request, &flag),
        );
    }
    merger.close(&rt);
    assert!(rt; seen == (Shown::Nothing, Shown::Nothing));
    assert!(rt; came.load(Ordering::SeqCst) == 1);
    Ok(())
}

/// A merger of the service that published this merge, with its gate.
fn publish_one<R: Wait>(
    rt: &R,
    alloc: Global,
    service: Service,
    incarnation: u64,
    merge: &Merge,
) -> Option<(Merger, Gate)>
    ensures { IfSome result (λ made. made.1.base ≡ service) }
{
    let Ok((mut merger, mut gates)) = open(rt, alloc, service, 1, incarnation) else {
        return None;
    };
    let appended = merger.append(merge);
    let published = merger.publish(rt);
    if let (Some(gate), Ok(()), Ok(_)) = (gates.pop(), appended, published) {
        return Some((merger, gate));
    }
    merger.close(rt);
    None
}

/// Whether both gates answer the same to the byte, with a TimeMap.
fn answer_alike(first: &mut Gate, second: &mut Gate, request: &Request) -> bool
    requires { second.old.base ≡ first.old.base }
{
    match ask_both(first, second, request) {
        Ok((one, other)) => {
            one.status == 200 && other.status == 200 && one.body.as_slice() == other.body.as_slice()
        }
        Err(_) => false,
    }
}

#[test]
fn gates_of_two_replicas_with_one_state_answer_alike(rt: HostRuntime) -> Result<()> {
    let alloc = rt.alloc();
    let asked = timemap_request(alloc)?;
    let mementos = mementos(alloc, &[(FIRST_DAY, FIRST)])?;
    let direct = harvest(alloc, b"a1", ORIGINAL, 1, mementos)?;
    let mut state = State::new(alloc);
    state.merge(&direct)?;
    let (direct, learnt) = (Merge::Harvest(direct), Merge::State(state));
    let base = service(alloc)?;
    let copy = base.try_clone()?;
    let mut alike = false;
    if let Some((merger, mut gate)) = publish_one(&rt, alloc, base, 1, &direct) {
        if let Some((other_merger, mut other)) = publish_one(&rt, alloc, copy, 2, &learnt) {
            alike = answer_alike(&mut gate, &mut other, &asked);
            other_merger.close(&rt);
        }
        merger.close(&rt);
    }
    assert!(rt; alike);
    Ok(())
}
