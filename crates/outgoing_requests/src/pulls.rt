//! Pulls from peers what they have learnt.
ghost use Rattle.std.specs.Prelude.{◌≡◌, ◌≢◌, ◌++◌, IfErr, IfOk, string_bytes};
ghost use Rattle.timegate.specs.Route.{delta_target};
ghost use Rattle.delta_parts.specs.Asks.{target_of};
ghost use Rattle.outgoing_requests.specs.Pulls.{Brings, BringsPart, IsBrought, IsPartBrought, IsPartRefusedFor};
ghost use Rattle.outgoing_requests.specs.Pulls.{IsRefusedFor};

use crate::exchanges::{Manner, get};
use crate::faults::PullFault;
use crate::patience::Patience;
use delta_parts::{Part, PartAsk, read_part, write_target};
use harvester::Answer;
use memento_time::Clean;
use replica_exchange::{Cursor, Delta, StateFault, read_delta};
use std::alloc::{AllocGlobal, Global};
use std::net::{Net, TcpListener, TcpStream};
use std::random::RandomSource;
use std::sync::Wait;
use std::time::Clock;

/// The most bytes that a delta's text can have.
const MAX_DELTA: usize = 268_435_456;

/// The most bytes of a part's own lines, each of whose places has an archive's name and an original.
const MAX_HEAD: usize = 16_384;

/// What a peer gave.
#[derive(Debug, Drop)]
pub enum Pulled {
    Whole(Delta),
    InPart(Part),
}

/// Pulls the delta of a peer from a cursor, or from none: what the peer answers for `/delta/I/N` or `/delta` under its
/// base, which is kept without the last `/`. The peer says where its delta starts, so whoever takes it has to test
/// whether it fits. A peer whose answer doesn't come within a minute (`Patience::default`) is `Failed`; a body of over
/// 268,435,456 bytes is `BadState`.
pub fn pull_state<R>(rt: &R, peer: &Clean, cursor: Option<Cursor>) -> Result<Delta, PullFault>
where
    R: Wait + Clock + Net<Listener = TcpListener, Stream = TcpStream> + RandomSource + AllocGlobal,
    ensures brought { IfOk result IsBrought }
    ensures status { IfErr result (λ fault. fault ≢ PullFault.Status 200) }
{
    match pull_within(rt, Patience::default(), peer, cursor) {
        Err(PullFault::TooLong) => Err(PullFault::BadState),
        pulled => pulled,
    }
}

/// Pulls as `pull_state` does, but with a patience of its own; a body of over 268,435,456 bytes is `TooLong`.
pub fn pull_within<R>(
    rt: &R,
    patience: Patience,
    peer: &Clean,
    cursor: Option<Cursor>,
) -> Result<Delta, PullFault>
where
    R: Wait + Clock + Net<Listener = TcpListener, Stream = TcpStream> + RandomSource + AllocGlobal,
    ensures brought { IfOk result IsBrought }
    ensures status { IfErr result (λ fault. fault ≢ PullFault.Status 200) }
{
    let alloc = rt.alloc();
    let url = delta_url(alloc, peer, cursor)?;
    let manner = Manner::of_patience(patience);
    let answer = get(rt, manner, None, url.as_str(), MAX_DELTA)?;
    delta_in(alloc, &answer)
}

/// Pulls a part of a peer's delta: what the peer answers for the target of the ask (`write_target`) under its base. The
/// peer says where the part begins, so whoever takes it has to test whether it fits.
pub fn pull_part<R>(
    rt: &R,
    patience: Patience,
    peer: &Clean,
    ask: &PartAsk,
) -> Result<Part, PullFault>
where
    R: Wait + Clock + Net<Listener = TcpListener, Stream = TcpStream> + RandomSource + AllocGlobal,
    ensures brought { IfOk result IsPartBrought }
    ensures status { IfErr result (λ fault. fault ≢ PullFault.Status 200) }
{
    let alloc = rt.alloc();
    let url = part_url(alloc, peer, ask)?;
    let manner = Manner::of_patience(patience);
    let answer = get(rt, manner, None, url.as_str(), MAX_DELTA + MAX_HEAD)?;
    part_in(alloc, &answer)
}

/// The part that a peer's answer has, or why it has none.
fn part_in(alloc: Global, answer: &Answer) -> Result<Part, PullFault>
    ensures ok { IfOk result (BringsPart answer.now) }
    ensures err { IfErr result (IsPartRefusedFor answer.now) }
{
    if answer.status != 200 {
        return Err(PullFault::Status(answer.status));
    }
    match read_part(alloc, answer.body.as_slice()) {
        Ok(part) => Ok(part),
        Err(StateFault::NoMemory) => Err(PullFault::NoMemory),
        Err(StateFault::TooLong) => Err(PullFault::TooLong),
        Err(StateFault::NotState) => Err(PullFault::BadState),
    }
}

/// The address of a part under the peer's base.
fn part_url(alloc: Global, peer: &Clean, ask: &PartAsk) -> Result<String, PullFault>
    ensures address { IfOk result (λ url. string_bytes url ≡ peer.now ++ target_of ask.now) }
    ensures status { IfErr result (λ fault. fault ≢ PullFault.Status 200) }
{
    let Ok(target) = write_target(alloc, ask) else {
        return Err(PullFault::NoMemory);
    };
    let Ok(mut url) = Vec::from_slice(alloc, peer.as_bytes()) else {
        return Err(PullFault::NoMemory);
    };
    if url.extend_from_slice(target.as_slice()).is_err() {
        return Err(PullFault::NoMemory);
    }
    match String::from_utf8(url) {
        Ok(url) => Ok(url),
        Err(_) => Err(PullFault::Failed),
    }
}

/// The delta that a peer's answer has, or why it has none.
fn delta_in(alloc: Global, answer: &Answer) -> Result<Delta, PullFault>
    ensures ok { IfOk result (Brings answer.now) }
    ensures err { IfErr result (IsRefusedFor answer.now) }
{
    if answer.status != 200 {
        return Err(PullFault::Status(answer.status));
    }
    match read_delta(alloc, answer.body.as_slice()) {
        Ok(delta) => Ok(delta),
        Err(StateFault::NoMemory) => Err(PullFault::NoMemory),
        Err(StateFault::TooLong) => Err(PullFault::TooLong),
        Err(StateFault::NotState) => Err(PullFault::BadState),
    }
}

/// The address of the delta under the peer's base.
fn delta_url(alloc: Global, peer: &Clean, cursor: Option<Cursor>) -> Result<String, PullFault>
    ensures address { IfOk result (λ url. string_bytes url ≡ peer.now ++ delta_target cursor) }
    ensures status { IfErr result (λ fault. fault ≢ PullFault.Status 200) }
{
    let Ok(base) = str::from_utf8(peer.as_bytes()) else {
        return Err(PullFault::Failed);
    };
    let written = match cursor {
        None => format!(in alloc; "{base}/delta"),
        Some(cursor) => {
            format!(in alloc; "{base}/delta/{}/{}", cursor.incarnation, cursor.number)
        }
    };
    let Ok(url) = written else {
        return Err(PullFault::NoMemory);
    };
    Ok(url)
}
