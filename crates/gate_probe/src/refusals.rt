//! Publishes and questions, each called again where memory was refused.
ghost use Rattle.std.specs.Prelude.{◌≡◌, All, IfOk};

use crate::harvests::{INCARNATION, merge, request, service};
use crate::replies::is_same;
use anyhow::{Result, anyhow, bail};
use memento_index::Merge;
use published_index::{Gate, GateFault, Merger, Receipt, open};
use std::alloc::Global;
use std::sync::Wait;
use timegate::{Reply, Request};

/// What is published, and what the gate is asked.
#[derive(Drop)]
struct Play {
    first: Merge,
    second: Merge,
    question: Request,
}

fn make_play(alloc: Global) -> Result<Play> {
    Ok(Play {
        first: merge(alloc, b"a1", 0, b"http://m.example/1")?,
        second: merge(alloc, b"b1", 2, b"http://m.example/2")?,
        question: request(alloc, b"/timemap/link/http://a.example/")?,
    })
}

/// A merger and its gate.
fn begin<R: Wait>(rt: &R, alloc: Global) -> Result<(Merger, Vec<Gate>)>
    ensures { IfOk result (λ begun. All (λ gate. gate.opening ≡ begun.0.opening) begun.1.items) }
{
    Ok(open(rt, alloc, service(alloc)?, 1, INCARNATION)?)
}

/// The reply, at the second try where the first is refused for want of memory.
fn ask(gate: &mut Gate, question: &Request) -> Result<Reply>
    ensures { gate.new.opening ≡ gate.old.opening }
{
    let answer = match gate.answer(question) {
        Err(GateFault::NoMemory) => gate.answer(question),
        answer => answer,
    };
    match answer {
        Ok(reply) => Ok(reply),
        Err(fault) => bail!("a gate answers: {fault}"),
    }
}

fn learn_and_ask(gate: &mut Gate, receipt: Receipt, question: &Request) -> Result<Reply>
    requires { receipt.opening ≡ gate.old.opening }
    ensures { gate.new.opening ≡ gate.old.opening }
{
    gate.learn(receipt);
    ask(gate, question)
}

/// Publishes, and asks the gate that learnt the receipt. A refused publish is told of first, when the gate must show
/// nothing, and then made again.
fn publish_and_ask<R: Wait>(
    rt: &R,
    merger: &mut Merger,
    gate: &mut Gate,
    question: &Request,
) -> Result<Reply>
    requires { gate.old.opening ≡ merger.old.opening }
    ensures gate { gate.new.opening ≡ gate.old.opening }
    ensures merger { merger.new.opening ≡ merger.old.opening }
{
    match merger.publish(rt) {
        Ok(receipt) => learn_and_ask(gate, receipt, question),
        Err(_) => {
            let before = ask(gate, question)?;
            let after = learn_and_ask(gate, merger.tell(), question)?;
            if after.status != 404 || !is_same(&before, &after) {
                bail!("a refused publish showed something");
            }
            match merger.publish(rt) {
                Ok(receipt) => learn_and_ask(gate, receipt, question),
                Err(_) => bail!("a publish was refused twice"),
            }
        }
    }
}

/// Appends, once more where memory was refused: then the gate that was told of all that is published shows nothing.
fn append(merger: &mut Merger, gate: &mut Gate, merge: &Merge, question: &Request) -> Result<()>
    requires { gate.old.opening ≡ merger.old.opening }
    ensures gate { gate.new.opening ≡ gate.old.opening }
    ensures merger { merger.new.opening ≡ merger.old.opening }
{
    if merger.append(merge).is_ok() {
        return Ok(());
    }
    if learn_and_ask(gate, merger.tell(), question)?.status != 404 {
        bail!("a refused append showed something");
    }
    Ok(merger.append(merge)?)
}

/// Publishes nothing, then two merges at once, and asks after each publish.
fn exchange<R: Wait>(
    rt: &R,
    merger: &mut Merger,
    gate: &mut Gate,
    play: &Play,
) -> Result<(Reply, Reply)>
    requires { gate.old.opening ≡ merger.old.opening }
{
    let nothing = publish_and_ask(rt, merger, gate, &play.question)?;
    append(merger, gate, &play.first, &play.question)?;
    append(merger, gate, &play.second, &play.question)?;
    let both = publish_and_ask(rt, merger, gate, &play.question)?;
    Ok((nothing, both))
}

fn exchange_and_close<R: Wait>(
    rt: &R,
    mut merger: Merger,
    mut gates: Vec<Gate>,
    play: &Play,
) -> Result<(Reply, Reply)>
    requires { All (λ gate. gate.opening ≡ merger.opening) gates.items }
{
    let replies = match gates.pop() {
        Some(mut gate) => exchange(rt, &mut merger, &mut gate, play),
        None => Err(anyhow!("there is no gate")),
    };
    merger.close(rt);
    replies
}

/// The replies before and after the merges are published.
pub(crate) fn perform<R: Wait>(rt: &R, alloc: Global) -> Result<[Reply; 2]> {
    let play = match make_play(alloc) {
        Ok(play) => play,
        Err(_) => make_play(alloc)?,
    };
    let (merger, gates) = match begin(rt, alloc) {
        Ok(begun) => begun,
        Err(_) => begin(rt, alloc)?,
    };
    let (nothing, both) = exchange_and_close(rt, merger, gates, &play)?;
    Ok([nothing, both])
}
