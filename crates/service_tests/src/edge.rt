//! Over loopback, what no whole service shows: a gate without memory for an answer, and the fault of a body that ends
//! too early.
use anyhow::{Context, Result};
use crossbeam_channel::{Receiver, Sender, bounded};
use harvester::{Answer, Fetch, FetchFault, WalkProgress};
use hyper_edge::{Answers, GateService, HyperFetch, Readiness, ReadyGate, bind, serve_gate};
use knowledge_tests::makers::get;
use memento_time::{Clean, Items, Octets};
use outgoing_requests::{Agent, CarefulFetch, FetchLimits, Patience, PullFault, is_allowed};
use published_index::GateFault;
use std::alloc::{AllocGlobal, Global};
use std::io::{self, BufRead, BufReader, Write};
use std::net::{IpAddr, Ipv6Addr, Net, TcpListener, TcpStream};
use std::random::RandomSource;
use std::sync::Wait;
use std::thread::{self, Threads};
use std::time::{Clock, Duration, Instant};
use text_tests::makers::clean;
use timegate::{Reply, Request};
use url::Host;

/// Has memory for no answer.
#[derive(Drop)]
struct Spent;

impl Answers for Spent {
    ghost use Rattle.std.specs.Prelude.{⊤};

    ghost shows = { λ _ _ _. ⊤ };

    ghost follows = { λ _ _. ⊤ };

    ghost may_close = { ⊤ };

    fn answer(&mut self, _request: &Request) -> Result<Reply, GateFault> {
        Err(GateFault::NoMemory)
    }

    ghost stays = { λ _. tt };

    ghost goes_on = { λ _ _ _ _ _. tt };
}

/// The URL on the server behind a port.
fn url_at(alloc: Global, port: u16) -> Result<Clean> {
    let url = format!(in alloc; "http://127.0.0.1:{port}/x")?;
    clean(alloc, url.as_bytes())
}

/// Serves one connection, and counts those that ended with a fault.
fn serve_one<R>(rt: &R, port: &Sender<u16>) -> Option<u64>
where
    R: Wait
        + Clock
        + Net<Listener = TcpListener, Stream = TcpStream>
        + RandomSource
        + AllocGlobal
        + Clone
        + Drop,
{
    let own = rt.clone().ok()?;
    let mut bound = bind(rt, "127.0.0.1:0").ok()?;
    let service = GateService::new(rt.alloc(), own, Spent).ok()?;
    let _ = port.send(rt, bound.port());
    serve_gate(rt, &mut bound, &service, 1).ok()
}

fn fetch_at<R>(rt: &R, port: &Receiver<u16>) -> Option<Answer>
where
    R: Wait + Clock + Net<Listener = TcpListener, Stream = TcpStream> + RandomSource + AllocGlobal,
{
    let port = port.recv(rt).ok()?;
    let url = url_at(rt.alloc(), port).ok()?;
    HyperFetch.fetch(rt, &url).ok()
}

#[test]
fn fault_is_503(rt: HostRuntime) -> Result<()> {
    let (port_to, port_from) = bounded(rt.alloc(), 1)?;
    let rt = &rt;
    let (served, fetched) = thread::join(
        rt,
        move || serve_one(rt, &port_to),
        move || fetch_at(rt, &port_from),
    );
    assert!(rt; served == Some(0));
    let answer = fetched.context("no answer")?;
    assert!(rt; answer.status == 503 && answer.body.as_slice().is_empty());
    Ok(())
}

/// Reads the head of the request that came over a stream.
fn skip_head(alloc: Global, stream: &TcpStream) -> io::Result<()> {
    for line in BufReader::new(alloc, stream)?.lines(alloc) {
        if line?.is_empty() {
            break;
        }
    }
    Ok(())
}

/// Answers one connection with a body of a byte where two are said.
fn answer_short(alloc: Global, listener: &TcpListener) -> io::Result<()> {
    let (mut stream, _peer) = listener.accept()?;
    skip_head(alloc, &stream)?;
    stream.write_all(b"HTTP/1.1 200 OK\r\nContent-Length: 2\r\n\r\nx")
}

#[test]
fn body_that_ends_too_early_is_no_answer(rt: HostRuntime) -> Result<()> {
    let listener = TcpListener::bind(&rt, "127.0.0.1:0")?;
    let url = url_at(rt.alloc(), listener.local_addr()?.port())?;
    let (answered, fetched) = thread::join(
        &rt,
        || answer_short(rt.alloc(), &listener),
        || HyperFetch.fetch(&rt, &url),
    );
    answered?;
    assert!(rt; matches!(fetched, Err(FetchFault::Broken)));
    Ok(())
}

/// Answers each request alike.
#[derive(Clone, Copy)]
struct Steady {
    alloc: Global,
}

impl Answers for Steady {
    ghost use Rattle.std.specs.Prelude.{⊤};

    ghost shows = { λ _ _ _. ⊤ };

    ghost follows = { λ _ _. ⊤ };

    ghost may_close = { ⊤ };

    fn answer(&mut self, _request: &Request) -> Result<Reply, GateFault> {
        Ok(Reply {
            status: 404,
            headers: Items::of(Vec::new(self.alloc)),
            body: Octets::of(Vec::new(self.alloc)),
        })
    }

    ghost stays = { λ _. tt };

    ghost goes_on = { λ _ _ _ _ _. tt };
}

/// The status that a gate answers, if it answers.
fn status_of<G: Answers>(gate: &mut ReadyGate<G>, request: &Request) -> Option<u16> {
    match gate.answer(request) {
        Ok(reply) => Some(reply.status),
        Err(_) => None,
    }
}

#[test]
fn a_gate_answers_once_it_is_ready(rt: HostRuntime) -> Result<()> {
    let alloc = rt.alloc();
    let request = get(alloc, b"/timegate/http://a.example/")?;
    let readiness = Readiness::new(alloc)?;
    let mut gate = ReadyGate::new(Steady { alloc }, readiness.share()?);
    assert!(rt; !readiness.is_set() && status_of(&mut gate, &request).is_none());
    let other = readiness.share()?;
    thread::join(&rt, move || other.set(), || ());
    assert!(rt; readiness.is_set() && status_of(&mut gate, &request) == Some(404));
    Ok(())
}

/// The name that a request gives its sender, if it gives one.
fn read_agent(alloc: Global, stream: &TcpStream) -> io::Result<String> {
    let mut agent = String::new(alloc);
    for line in BufReader::new(alloc, stream)?.lines(alloc) {
        let line = line?;
        if line.is_empty() {
            break;
        }
        if let Some(value) = line.as_str().strip_prefix("user-agent: ") {
            agent.push_str(value)?;
        }
    }
    Ok(agent)
}

/// Answers one connection with the name of its sender as the body.
fn answer_agent(alloc: Global, listener: &TcpListener) -> io::Result<()> {
    let (mut stream, _peer) = listener.accept()?;
    let agent = read_agent(alloc, &stream)?;
    let count = agent.len();
    let head = format!(in alloc; "HTTP/1.1 200 OK\r\nContent-Length: {count}\r\n\r\n{agent}")?;
    stream.write_all(head.as_bytes())
}

/// The body that a fetch gets of a server that names its client.
fn agent_seen<R>(rt: &R, fetch: CarefulFetch<'_>) -> Result<Octets>
where
    R: Threads
        + Sync
        + Wait
        + Clock
        + Net<Listener = TcpListener, Stream = TcpStream>
        + RandomSource
        + AllocGlobal,
{
    let listener = TcpListener::bind(rt, "127.0.0.1:0")?;
    let url = url_at(rt.alloc(), listener.local_addr()?.port())?;
    let (answered, fetched) = thread::join(
        rt,
        || answer_agent(rt.alloc(), &listener),
        || fetch.fetch(rt, &url),
    );
    answered?;
    Ok(fetched?.body)
}

/// A fetch with a patience of a second, by these limits.
fn limited(limits: FetchLimits) -> CarefulFetch<'static> {
    CarefulFetch {
        patience: Patience::of_seconds(1),
        hosts: None,
        limits,
        agent: None,
    }
}

#[test]
fn agents_are_sent(rt: HostRuntime) -> Result<()> {
    let text = "Maplewrench (+mailto:you@example.org)";
    let agent = Agent::new(rt.alloc(), text)?.context("no agent")?;
    assert!(rt; agent.as_str() == text);
    let nameless = limited(FetchLimits::default());
    assert!(rt; agent_seen(&rt, nameless)?.as_slice().is_empty());
    let named = CarefulFetch {
        patience: Patience::of_seconds(1),
        hosts: None,
        limits: FetchLimits::default(),
        agent: Some(&agent),
    };
    assert!(rt; agent_seen(&rt, named)?.as_slice() == text.as_bytes());
    Ok(())
}

#[test]
fn agents_are_visible_texts(rt: HostRuntime) -> Result<()> {
    for other in ["", " ", " a", "a ", "a\nb", "é"] {
        assert!(rt; Agent::new(rt.alloc(), other)?.is_none(), "{other}");
    }
    Ok(())
}

/// Answers one connection, with the last byte of the body two seconds after the others.
fn answer_late(rt: &(impl Clock + AllocGlobal), listener: &TcpListener) -> io::Result<()> {
    let (mut stream, _peer) = listener.accept()?;
    skip_head(rt.alloc(), &stream)?;
    stream.write_all(b"HTTP/1.1 200 OK\r\nContent-Length: 2\r\n\r\nx")?;
    thread::sleep(rt, Duration::from_secs(2));
    let _ = stream.write_all(b"y");
    Ok(())
}

/// Whether a page that comes late is fetched in a walk that began just now, and in which so many pages were tried.
fn is_fetched_late<R>(rt: &R, limits: FetchLimits, tried: usize) -> Result<bool>
where
    R: Threads
        + Sync
        + Wait
        + Clock
        + Net<Listener = TcpListener, Stream = TcpStream>
        + RandomSource
        + AllocGlobal,
{
    let listener = TcpListener::bind(rt, "127.0.0.1:0")?;
    let url = url_at(rt.alloc(), listener.local_addr()?.port())?;
    let progress = WalkProgress {
        begun: Instant::now(rt).ok(),
        tried,
    };
    let fetch = limited(limits);
    let (answered, fetched) = thread::join(
        rt,
        || answer_late(rt, &listener),
        || fetch.fetch_in_walk(rt, &url, progress),
    );
    answered?;
    Ok(fetched.is_ok())
}

#[test]
fn slow_bodies_are_given_up(rt: HostRuntime) -> Result<()> {
    let mut limits = FetchLimits::default();
    assert!(rt; is_fetched_late(&rt, limits, 1)?);
    limits.rate = Some(100);
    assert!(rt; !is_fetched_late(&rt, limits, 1)?);
    limits.rate = None;
    limits.walk = Some(1);
    for tried in [0, 1] {
        assert!(rt; !is_fetched_late(&rt, limits, tried)?, "{tried}");
    }
    Ok(())
}

#[test]
fn a_walk_pauses_and_ends(rt: HostRuntime) -> Result<()> {
    let url = clean(rt.alloc(), b"http://127.0.0.1:1/")?;
    let mut limits = FetchLimits::default();
    limits.every = Some(200);
    let began = Instant::now(&rt)?;
    let mut progress = WalkProgress {
        begun: Some(began),
        tried: 1,
    };
    assert!(rt; limited(limits).fetch_in_walk(&rt, &url, progress).is_err());
    let paused = Instant::now(&rt)?;
    assert!(rt; paused.duration_since(began) >= Duration::from_millis(200));
    limits.walk = Some(0);
    limits.every = Some(3_600_000);
    progress.begun = Some(paused);
    assert!(rt; limited(limits).fetch_in_walk(&rt, &url, progress).is_err());
    assert!(rt; Instant::now(&rt)?.duration_since(paused) < Duration::from_secs(60));
    Ok(())
}

/// A delta of a peer that is too long isn't told as one that can't be read.
#[test]
fn what_a_fetch_lacks_a_pull_lacks(rt: HostRuntime) -> Result<()> {
    for (fetched, pulled) in [
        (FetchFault::Failed, PullFault::Failed),
        (FetchFault::Broken, PullFault::Failed),
        (FetchFault::TooLong, PullFault::TooLong),
        (FetchFault::NoMemory, PullFault::NoMemory),
    ] {
        assert_eq!(rt; PullFault::from(fetched), pulled);
    }
    Ok(())
}

/// A listed host that is an IPv6 address leads there, be it internal or not, and nowhere else.
#[test]
fn an_address_leads_to_itself_alone(rt: HostRuntime) -> Result<()> {
    for last in [1, 2] {
        let own = Ipv6Addr::new(0, 0, 0, 0, 0, 0, 0, last);
        let host: Host<&str> = Host::Ipv6(own);
        assert!(rt; is_allowed(&host, IpAddr::V6(own)), "{last}");
        let other = Ipv6Addr::new(0x2001, 0xdb8, 0, 0, 0, 0, 0, last);
        assert!(rt; !is_allowed(&host, IpAddr::V6(other)), "{last}");
    }
    Ok(())
}
