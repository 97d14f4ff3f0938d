//! Gates over sockets of this machine: two that are served at once, one whose client doesn't read its reply, one that
//! serves two connections at once, and one that may be refused memory.
use anyhow::{Result, bail};
use crossbeam_channel::{Receiver, Sender, bounded};
use gate_server::{Answers, Bound, EdgeFault, GateService, bind, serve_gate, serve_together};
use harvester::SocketRuntime;
use memento_time::{Items, Octets};
use published_index::GateFault;
use std::alloc::{AllocGlobal, Global};
use std::io::{Read, Write};
use std::net::{Ipv4Addr, Net, TcpListener, TcpStream};
use std::random::RandomSource;
use std::sync::Wait;
use std::sync::atomic::{AtomicU64, Ordering};
use std::thread::{self, Threads, join};
use std::time::{Clock, Duration};
use timegate::{Reply, Request};

/// How many sleeps of a millisecond one gate waits for another.
const SLEEPS: u32 = 10_000;

/// How many calls serve the connections of `insist`: three, the last that ends it, and those that memory ends.
const MOST_CALLS: u32 = 8;

const REQUEST: &[u8] = b"GET /x HTTP/1.1\r\nHost: agg.example\r\nConnection: close\r\n\r\n";

/// Answers once the other is asked too, and has no memory for an answer where it isn't.
#[derive(Drop)]
struct Meeting<'a, R> {
    rt: &'a R,
    alloc: Global,
    own: &'a AtomicU64,
    other: &'a AtomicU64,
}

impl<'a, R: Clock> Answers for Meeting<'a, R> {
    ghost use Rattle.std.specs.Prelude.{⊤};

    ghost shows = { λ _ _ _. ⊤ };

    ghost follows = { λ _ _. ⊤ };

    ghost may_close = { ⊤ };

    fn answer(&mut self, _request: &Request) -> Result<Reply, GateFault> {
        self.own.store(1, Ordering::SeqCst);
        if !wait_for(self.rt, self.other) {
            return Err(GateFault::NoMemory);
        }
        Ok(Reply {
            status: 200,
            headers: Items::of(Vec::new(self.alloc)),
            body: Octets::of(Vec::new(self.alloc)),
        })
    }

    ghost stays = { λ _. tt };

    ghost goes_on = { λ _ _ _ _ _. tt };
}

/// Answers each request alike.
#[derive(Clone, Copy)]
struct Steady {
    alloc: Global,
}

impl Answers for Steady {
    ghost use Rattle.std.specs.Prelude.{⊤};

    ghost shows = { λ _ _ _. ⊤ };

    ghost follows = { λ _ _. ⊤ };

    ghost may_close = { ⊤ };

    fn answer(&mut self, _request: &Request) -> Result<Reply, GateFault> {
        Ok(Reply {
            status: 200,
            headers: Items::of(Vec::new(self.alloc)),
            body: Octets::of(Vec::new(self.alloc)),
        })
    }

    ghost stays = { λ _. tt };

    ghost goes_on = { λ _ _ _ _ _. tt };
}

/// Whether the flag is set, before so many sleeps are over.
fn wait_for(rt: &impl Clock, flag: &AtomicU64) -> bool {
    for _ in 0..SLEEPS {
        if flag.load(Ordering::SeqCst) == 1 {
            return true;
        }
        let _ = thread::sleep(rt, Duration::from_millis(1));
    }
    false
}

/// How many connections are served, and how many of them at once.
#[derive(Clone, Copy)]
struct Load {
    connections: u64,
    together: u64,
}

/// Serves connections one after the other, or several at once.
fn serve_by<R, G>(
    rt: &R,
    bound: &mut Bound,
    service: &GateService<G, R>,
    load: Load,
) -> Result<u64, EdgeFault>
where
    R: Wait + Clock + RandomSource + AllocGlobal + Clone + Drop,
    G: Answers,
{
    if load.together == 1 {
        serve_gate(rt, bound, service, load.connections)
    } else {
        serve_together(rt, bound, service, load.connections, load.together)
    }
}

/// Serves connections at a port that it tells, and counts those that ended with a fault.
fn serve<R, G>(rt: &R, answers: G, port: &Sender<u16>, load: Load) -> Option<u64>
where
    R: SocketRuntime + Clone + Drop,
    G: Answers,
{
    let own = rt.clone().ok()?;
    let mut bound = bind(rt, "127.0.0.1:0").ok()?;
    let service = GateService::new(rt.alloc(), own, answers).ok()?;
    let _ = port.send(rt, bound.port());
    serve_by(rt, &mut bound, &service, load).ok()
}

/// What a client got.
#[derive(Clone, Copy, Debug, PartialEq, Eq)]
enum Got {
    /// The beginning of a reply of status 200, as far as it was read.
    Reply,
    /// 503, or a connection that was closed.
    Refusal,
    /// Anything else.
    Other,
}

/// Reads so many bytes of the reply to a request at this port. Takes no memory.
fn ask<R>(rt: &R, port: u16, count: usize) -> Got
where
    R: Net<Listener = TcpListener, Stream = TcpStream>,
{
    match TcpStream::connect(rt, (Ipv4Addr::LOCALHOST, port)) {
        Ok(mut stream) => ask_over(&mut stream, count),
        Err(_) => Got::Refusal,
    }
}

/// Reads so many bytes of the reply to a request over a connection.
fn ask_over(stream: &mut TcpStream, count: usize) -> Got {
    let (reply, refusal) = (b"HTTP/1.1 200", b"HTTP/1.1 503");
    let mut buffer = [0u8; 12];
    let read = &mut buffer[..count.min(12)];
    if stream.write_all(REQUEST).is_err() || stream.read_exact(read).is_err() {
        return Got::Refusal;
    }
    if reply.starts_with(read) {
        Got::Reply
    } else if refusal.starts_with(read) {
        Got::Refusal
    } else {
        Got::Other
    }
}

/// Asks the gate behind a port once for each count, for so many bytes of its reply.
fn ask_each<R>(rt: &R, port: &Receiver<u16>, counts: &[usize]) -> bool
where
    R: Wait + Net<Listener = TcpListener, Stream = TcpStream>,
{
    let Ok(port) = port.recv(rt) else {
        return false;
    };
    counts
        .iter()
        .all(|count| ask(rt, port, *count) == Got::Reply)
}

/// Serves a connection for each count, whose client reads so many bytes of its reply: how many connections ended with a
/// fault, where each client got what it read.
fn serve_and_ask<R, G>(rt: &R, answers: G, counts: &[usize]) -> Option<u64>
where
    R: SocketRuntime + Threads + Sync + Clone + Drop,
    G: Answers + Send,
{
    let (port_to, port_from) = bounded(rt.alloc(), 1).ok()?;
    let load = Load {
        connections: counts.len() as u64,
        together: 1,
    };
    let (faults, are_answered) = join(
        rt,
        move || serve(rt, answers, &port_to, load),
        move || ask_each(rt, &port_from, counts),
    );
    if are_answered { faults } else { None }
}

/// Two gates, each of which answers once the other is asked: both are served at once, and both clients get their reply.
pub(crate) fn meet<R>(rt: &R) -> Result<()>
where
    R: Wait
        + Clock
        + Net<Listener = TcpListener, Stream = TcpStream>
        + RandomSource
        + AllocGlobal
        + Threads
        + Sync
        + Clone
        + Drop,
{
    let alloc = rt.alloc();
    let first = AtomicU64::new(0);
    let second = AtomicU64::new(0);
    let one = Meeting {
        rt,
        alloc,
        own: &first,
        other: &second,
    };
    let other = Meeting {
        rt,
        alloc,
        own: &second,
        other: &first,
    };
    let faults = join(
        rt,
        move || serve_and_ask(rt, one, &[12]),
        move || serve_and_ask(rt, other, &[12]),
    );
    if faults != (Some(0), Some(0)) {
        bail!("two gates weren't served at once");
    }
    Ok(())
}

/// A client that closes after the first byte of its reply, and one that comes next: how many connections ended with a
/// fault.
pub(crate) fn leave<R>(rt: &R) -> Result<u64>
where
    R: Wait
        + Clock
        + Net<Listener = TcpListener, Stream = TcpStream>
        + RandomSource
        + AllocGlobal
        + Threads
        + Sync
        + Clone
        + Drop,
{
    let flag = AtomicU64::new(0);
    let answers = Meeting {
        rt,
        alloc: rt.alloc(),
        own: &flag,
        other: &flag,
    };
    match serve_and_ask(rt, answers, &[1, 12]) {
        Some(faults) if faults <= 1 => Ok(faults),
        _ => bail!("a client that left kept the next from being served"),
    }
}

/// Asks over a second connection while nothing is asked over the first, and then over that: whether both got a reply.
fn ask_backwards<R>(rt: &R, port: &Receiver<u16>) -> bool
where
    R: Wait + Net<Listener = TcpListener, Stream = TcpStream>,
{
    let Ok(port) = port.recv(rt) else {
        return false;
    };
    let Ok(mut first) = TcpStream::connect(rt, (Ipv4Addr::LOCALHOST, port)) else {
        return false;
    };
    let second = ask(rt, port, 12);
    second == Got::Reply && ask_over(&mut first, 12) == Got::Reply
}

/// A gate that serves two connections at once: the second is served while the first is silent, and so is the first.
pub(crate) fn share<R>(rt: &R) -> Result<()>
where
    R: Wait
        + Clock
        + Net<Listener = TcpListener, Stream = TcpStream>
        + RandomSource
        + AllocGlobal
        + Threads
        + Sync
        + Clone
        + Drop,
{
    let steady = Steady { alloc: rt.alloc() };
    let load = Load {
        connections: 2,
        together: 2,
    };
    let (port_to, port_from) = bounded(rt.alloc(), 1)?;
    let (faults, are_answered) = join(
        rt,
        move || serve(rt, steady, &port_to, load),
        move || ask_backwards(rt, &port_from),
    );
    if faults != Some(0) || !are_answered {
        bail!("a silent client kept another from the gate that they share");
    }
    Ok(())
}

/// Serves connections, so many together, at a port that it tells, until it is told that no more come. A call that
/// memory ends is made again, on the same socket.
fn serve_on<R>(rt: &R, port: &Sender<u16>, is_over: &AtomicU64, together: u64) -> bool
where
    R: SocketRuntime + Clone + Drop,
{
    let steady = Steady { alloc: rt.alloc() };
    let own: Result<R, _> = rt.clone();
    let other: Result<R, _> = rt.clone();
    let (Ok(own), Ok(other)) = (own, other) else {
        return false;
    };
    let service = GateService::new(rt.alloc(), own, steady);
    let service = service.or_else(|_| GateService::new(rt.alloc(), other, steady));
    let bound = bind(rt, "127.0.0.1:0").or_else(|_| bind(rt, "127.0.0.1:0"));
    let (Ok(service), Ok(mut bound)) = (service, bound) else {
        return false;
    };
    if port.send(rt, bound.port()).is_err() {
        return false;
    }
    for _ in 0..MOST_CALLS {
        if is_over.load(Ordering::SeqCst) == 1 {
            return true;
        }
        let load = Load {
            connections: 1,
            together,
        };
        let _ = serve_by(rt, &mut bound, &service, load);
    }
    false
}

/// Asks until two replies came, and says that no more questions come. `None` where no gate was served; else whether at
/// most one question got a refusal, and none anything else.
fn ask_on<R>(rt: &R, port: &Receiver<u16>, is_over: &AtomicU64) -> Option<bool>
where
    R: SocketRuntime,
{
    let port = port.recv_timeout(rt, Duration::from_secs(10));
    let got = port.map(|port| {
        let two = [ask(rt, port, 12), ask(rt, port, 12)];
        let last = if two == [Got::Reply, Got::Reply] {
            Got::Reply
        } else {
            ask(rt, port, 12)
        };
        let refusals = two.iter().filter(|got| **got == Got::Refusal).count();
        last == Got::Reply && refusals <= 1 && !two.contains(&Got::Other)
    });
    is_over.store(1, Ordering::SeqCst);
    if let Ok(port) = port {
        // Each wakes a call that waits for a connection. Memory may be refused for one of them, and not for both.
        let _ = TcpStream::connect(rt, (Ipv4Addr::LOCALHOST, port));
        let _ = TcpStream::connect(rt, (Ipv4Addr::LOCALHOST, port));
    }
    got.ok()
}

/// Two replies of a gate that may be refused memory once. `None` where the refusal let nothing begin.
fn try_to_reply<R>(rt: &R, together: u64) -> Option<bool>
where
    R: SocketRuntime + Threads + Sync + Clone + Drop,
{
    let is_over = AtomicU64::new(0);
    let (port_to, port_from) = bounded(rt.alloc(), 1).ok()?;
    // Where no thread can be made the second of these runs to its end before the first.
    let (served, got) = join(
        rt,
        || serve_on(rt, &port_to, &is_over, together),
        || ask_on(rt, &port_from, &is_over),
    );
    if served { got } else { None }
}

/// Whichever one request for memory is refused, the client whose reply it was gets a refusal, and the next its reply.
pub(crate) fn insist<R>(rt: &R) -> Result<()>
where
    R: Wait
        + Clock
        + Net<Listener = TcpListener, Stream = TcpStream>
        + RandomSource
        + AllocGlobal
        + Threads
        + Sync
        + Clone
        + Drop,
{
    for together in [1, 4] {
        match try_to_reply(rt, together).or_else(|| try_to_reply(rt, together)) {
            Some(true) => {}
            Some(false) => bail!("a client got what was neither its reply nor a refusal"),
            None => bail!("no gate was served"),
        }
    }
    Ok(())
}
