//! Fetches from archives.
ghost use Rattle.std.specs.Prelude.{◌≡◌, IfOk, IfSome};
ghost use Rattle.timemap_reader.specs.Answer.{IsShort};
ghost use Rattle.outgoing_requests.specs.Hosts.{IsListedText};

use crate::agents::Agent;
use crate::exchanges::{Manner, get};
use crate::hosts::AllowedHost;
use crate::limits::{FetchLimits, wait_within};
use crate::patience::Patience;
use harvester::{Answer, Fetch, FetchFault, SocketRuntime, WalkProgress};
use memento_time::Clean;
use std::alloc::AllocGlobal;
use std::net::{Net, TcpListener, TcpStream};
use std::random::RandomSource;
use std::sync::Wait;
use std::time::{Clock, Instant};

/// The most bytes that a body can have.
const MAX_BODY: usize = 8_388_608;

/// Fetches by HTTP/1.1, with a fresh connection for each URL. An https URL is `Failed`, and so is one whose answer
/// doesn't come within a minute (`Patience::default`).
#[derive(Clone, Copy, Debug)]
pub struct HyperFetch;

/// Fetches as `HyperFetch` does, but with a patience of its own. If it has hosts, a URL of another host is `Failed`
/// before a connection is made, and so is one whose listed name leads only to internal addresses (`is_allowed`).
///
/// Within its limits on a walk, a page that isn't all there at the walk's end is `Failed`, and so is one that comes too
/// slowly. If it has an agent, it names itself so.
#[derive(Clone, Copy, Debug)]
pub struct CarefulFetch<'a> {
    pub patience: Patience,
    pub hosts: Option<&'a [AllowedHost]>,
    pub limits: FetchLimits,
    pub agent: Option<&'a Agent>,
}

impl<'a> CarefulFetch<'a> {
    /// How a URL is asked for, in a walk that ends then.
    fn manner(&self, end: Option<Instant>) -> Manner<'a> {
        Manner {
            patience: self.patience,
            rate: self.limits.rate,
            end,
            agent: self.agent,
        }
    }
}

impl Fetch for HyperFetch {
    ghost use Rattle.std.specs.Prelude.{⊤};
    ghost use Rattle.timemap_reader.specs.Answer.{IsShort};

    ghost answers = { λ _ _ answer. IsShort answer.body };

    ghost faults = { λ _ _ _. ⊤ };

    fn fetch<R>(&self, rt: &R, url: &Clean) -> Result<Answer, FetchFault>
    where
        R: Wait
            + Clock
            + Net<Listener = TcpListener, Stream = TcpStream>
            + RandomSource
            + AllocGlobal,
    {
        fetch_within(rt, Manner::of_patience(Patience::default()), None, url)
    }
}

impl Fetch for CarefulFetch<'_> {
    ghost use Rattle.std.specs.Prelude.{⊤, IfSome};
    ghost use Rattle.timemap_reader.specs.Answer.{IsShort};
    ghost use Rattle.outgoing_requests.specs.Hosts.{IsListedText};

    ghost answers = { λ fetcher url answer.
        IsShort answer.body × IfSome fetcher.hosts (λ listed. IsListedText listed.now url) };

    ghost faults = { λ _ _ _. ⊤ };

    fn fetch<R>(&self, rt: &R, url: &Clean) -> Result<Answer, FetchFault>
    where
        R: Wait
            + Clock
            + Net<Listener = TcpListener, Stream = TcpStream>
            + RandomSource
            + AllocGlobal,
    {
        fetch_within(rt, self.manner(None), self.hosts, url)
    }

    fn fetch_in_walk<R>(
        &self,
        rt: &R,
        url: &Clean,
        progress: WalkProgress,
    ) -> Result<Answer, FetchFault>
    where
        R: Wait
            + Clock
            + Net<Listener = TcpListener, Stream = TcpStream>
            + RandomSource
            + AllocGlobal,
    {
        let end = self.limits.end_of(progress)?;
        wait_within(rt, self.limits.pause_before(progress.tried), end)?;
        fetch_within(rt, self.manner(end), self.hosts, url)
    }
}

fn fetch_within<R>(
    rt: &R,
    manner: Manner<'_>,
    hosts: Option<&[AllowedHost]>,
    url: &Clean,
) -> Result<Answer, FetchFault>
where
    R: SocketRuntime,
    ensures short { IfOk result (λ answer. IsShort answer.body) }
    ensures listed { IfOk result (λ _. IfSome hosts.entry (λ listed. IsListedText listed.now url.now)) }
{
    match str::from_utf8(url.as_bytes()) {
        Ok(text) => get(rt, manner, hosts, text, MAX_BODY),
        Err(_) => Err(FetchFault::Failed),
    }
}
