//! Serves several connections of a gate at once.
ghost use Rattle.std.specs.Prelude.{◌≡◌, ◌≤◌, ◌<◌, ◌⊎◌, IfErr, IfOk, IfSome, IfNone, Some, Ok, true, false, ◌+◌};
ghost use Rattle.futures.specs.Task.{Covers, IsArmed, Keeps};
ghost use Rattle.futures.specs.Poll.{IfReady, OnPending};
ghost use Rattle.futures.specs.Queued.{AllPollable, set_places, set_len};
ghost use Rattle.tokio.specs.Timers.{sleep_source};
ghost use Rattle.gate_server.specs.Crowds.{EndsGate, HasRoom, TellsOfNext};

use crate::answers::Answers;
use crate::binding::Bound;
use crate::faults::EdgeFault;
use crate::services::GateService;
use crate::serving::{ACCEPT_PAUSE, http_of, is_passing};
use crate::timers::GateTimer;
use bytes::Bytes;
use futures::stream::FuturesUnordered;
use futures::task::{Context, Poll};
use futures::{Future, Stream, ready};
use http_body_util::Full;
use hyper::server::conn::http1::{Builder, Connection};
use std::alloc::AllocGlobal;
use std::io;
use std::random::RandomSource;
use std::sync::Wait;
use std::time::{Clock, Duration, Instant};
use tokio::net::{TcpListener, TcpStream};
use tokio::time::{Handle, Sleep};

/// How many connections one poll takes or ends before it lets others run.
const BUDGET: u32 = 128;

/// What makes of each connection a future that serves it.
trait Opens: Drop {
    /// Serves one connection to its end.
    type Served: Future<Output = hyper::Result<()>>;

    /// What serves this connection.
    fn open(&self, stream: TcpStream) -> Result<Self::Served, EdgeFault>
        ensures pollable { IfOk result Self.Served.can_poll }
        ensures cause { IfErr result EndsGate };
}

/// How many connections are served in all and at once, and how many were taken, ended, and ended with a fault.
#[derive(Clone, Copy)]
struct Tally {
    connections: u64,
    together: u64,
    taken: u64,
    ended: u64,
    faults: u64,
    ghost taken_of_all: { taken ≤ connections },
    ghost few_at_once: { taken ≤ ended + together },
    ghost ended_of_taken: { ended ≤ taken },
    ghost faults_of_ended: { faults ≤ ended },
}

impl Tally {
    fn new(connections: u64, together: u64) -> Tally
        ensures { result.connections ≡ connections }
    {
        Tally {
            connections,
            together,
            taken: 0,
            ended: 0,
            faults: 0,
        }
    }

    /// Whether one more may be taken.
    fn has_room(&self) -> bool
        ensures room { result ≡ true → HasRoom self.now.connections self.now.together self.now.taken self.now.ended }
        ensures none { result ≡ false → ¬ HasRoom self.now.connections self.now.together self.now.taken self.now.ended }
    {
        self.taken < self.connections && self.taken - self.ended < self.together
    }

    /// Counts one more that was taken.
    fn take(&mut self)
        requires { HasRoom self.old.connections self.old.together self.old.taken self.old.ended }
        ensures taken { self.new.taken ≡ self.old.taken + 1 }
        ensures connections { self.new.connections ≡ self.old.connections }
    {
        self.taken += 1;
    }

    /// Counts one more that ended. Each that was taken ends once, but no clause of the set that gives the ends says so.
    fn end<T, E>(&mut self, ended: &Result<T, E>)
        ensures { self.new.connections ≡ self.old.connections }
    {
        if self.ended < self.taken {
            self.ended += 1;
            if ended.is_err() {
                self.faults += 1;
            }
        }
    }
}

/// A pause before the next connection is accepted.
#[derive(Drop)]
struct Pause {
    sleep: Sleep,
    is_on: bool,
}

impl Pause {
    /// A pause that isn't on.
    fn new(clock: &impl Clock, timers: &Handle) -> Result<Pause, EdgeFault>
        ensures { IfErr result EndsGate }
    {
        match timers.sleep(clock, Duration::from_millis(ACCEPT_PAUSE)) {
            Ok(sleep) => Ok(Pause {
                sleep,
                is_on: false,
            }),
            Err(error) => Err(EdgeFault::of_accepting(&error)),
        }
    }

    /// Begins a pause. Takes no memory.
    fn begin(&mut self, clock: &impl Clock) -> Result<(), EdgeFault>
        ensures { IfErr result EndsGate }
    {
        let now = match Instant::now(clock) {
            Ok(now) => now,
            Err(error) => return Err(EdgeFault::of_accepting(&error)),
        };
        let end = now.checked_add(Duration::from_millis(ACCEPT_PAUSE));
        self.sleep.reset(end.unwrap_or(now));
        self.is_on = true;
        Ok(())
    }

    /// Ready if no pause is on, or once it is over.
    fn poll_end(&mut self, cx: &mut Context<'_>) -> Poll<()>
        ensures registered { OnPending result (Covers cx.new (λ s. s ≡ sleep_source self.new.sleep)) }
        ensures on { OnPending result (self.new.is_on ≡ true) }
        ensures off { IfReady result (λ _. self.new.is_on ≡ false) }
        ensures kept { Keeps cx.old cx.new }
    {
        if self.is_on {
            let _ = ready!(self.sleep.poll_elapsed(cx));
            self.is_on = false;
        }
        Poll::Ready(())
    }
}

/// The connections that are served, and where further ones come from.
#[derive(Drop)]
struct Crowd<'a, R, O: Opens> {
    rt: &'a R,
    listener: &'a mut TcpListener,
    opens: O,
    pause: Pause,
    served: FuturesUnordered<O::Served>,
    tally: Tally,
}

/// What serves a gate's connections.
#[derive(Drop)]
struct Connections<R, G> {
    http: Builder<GateTimer<R>>,
    service: GateService<G, R>,
}

impl<R, G> Opens for Connections<R, G>
where
    R: Wait + Clock + Clone + Drop,
    G: Answers,
{
    type Served = Connection<TcpStream, GateService<G, R>, Full<Bytes>, GateTimer<R>>;

    fn open(&self, stream: TcpStream) -> Result<Self::Served, EdgeFault> {
        let service = self.service.share()?;
        Ok(self.http.serve_connection(stream, service))
    }
}

/// Serves this many connections as `serve_gate` does, but up to `together` of them at once (at least one), and returns
/// how many of them ended with a connection fault.
///
/// All ask the same gate, one request after the other. A client that is slow to ask or to read holds up its own
/// connection, and others only if `together` of them are slow. If no connection can be accepted for the moment, those
/// that were are served meanwhile. If memory is refused for one more, its client is. Any other fault of the socket ends
/// the gate, with all its connections.
pub fn serve_together<R, G>(
    rt: &R,
    bound: &mut Bound,
    service: &GateService<G, R>,
    connections: u64,
    together: u64,
) -> Result<u64, EdgeFault>
where
    R: Wait + Clock + RandomSource + AllocGlobal + Clone + Drop,
    G: Answers,
    ensures counted { IfOk result (λ faults. faults ≤ connections) }
    ensures cause { IfErr result (λ fault. (fault ≡ EdgeFault.Accept) ⊎ (fault ≡ EdgeFault.NoMemory)) }
{
    let timers = bound.runtime.handle().time();
    let opens = Connections {
        http: http_of(rt, timers)?,
        service: service.share()?,
    };
    let pause = Pause::new(rt, timers)?;
    let crowd = Crowd {
        rt,
        listener: &mut bound.listener,
        opens,
        pause,
        served: FuturesUnordered::new(rt.alloc())?,
        tally: Tally::new(connections, together.max(1)),
    };
    match bound.runtime.block_on(rt, crowd) {
        Ok(ended) => ended,
        Err(error) => Err(EdgeFault::of_accepting(&error)),
    }
}

impl<R: Clock, O: Opens> Crowd<'_, R, O> {
    /// The next connection.
    fn poll_stream(&mut self, cx: &mut Context<'_>) -> Poll<io::Result<TcpStream>>
        ensures registered { OnPending result
            (Covers cx.new (TellsOfNext self.new.pause.is_on self.new.pause.sleep self.new.listener.now)) }
        ensures kept { Keeps cx.old cx.new }
        ensures served { self.new.served ≡ self.old.served }
        ensures tally { self.new.tally ≡ self.old.tally }
    {
        ready!(self.pause.poll_end(cx));
        match ready!(self.listener.poll_accept(cx)) {
            Ok((stream, _)) => Poll::Ready(Ok(stream)),
            Err(error) => Poll::Ready(Err(error)),
        }
    }

    /// Serves what was accepted, or begins a pause where nothing can be for the moment. If memory is refused for one
    /// more, its client is.
    fn take(&mut self, accepted: io::Result<TcpStream>) -> Result<(), EdgeFault>
        requires pollable { AllPollable O.Served.can_poll (set_places self.old.served) }
        requires room { HasRoom self.old.tally.connections self.old.tally.together self.old.tally.taken self.old.tally.ended }
        ensures pollable { AllPollable O.Served.can_poll (set_places self.new.served) }
        ensures connections { self.new.tally.connections ≡ self.old.tally.connections }
        ensures cause { IfErr result EndsGate }
    {
        match accepted {
            Ok(stream) => {
                let served = self.opens.open(stream)?;
                if self.served.push(served).is_err() {
                    return self.pause.begin(self.rt);
                }
                self.tally.take();
                Ok(())
            }
            Err(error) if is_passing(&error) => self.pause.begin(self.rt),
            Err(error) => Err(EdgeFault::of_accepting(&error)),
        }
    }

    /// Takes a connection if there is room for one, or drives those that were taken until one of them ends. Ready with
    /// `Some` once all is over.
    fn step(&mut self, cx: &mut Context<'_>) -> Poll<Option<Result<u64, EdgeFault>>>
        requires pollable { AllPollable O.Served.can_poll (set_places self.old.served) }
        ensures pollable { OnPending result (AllPollable O.Served.can_poll (set_places self.new.served)) }
        ensures goes_on { IfReady result
            (λ o. IfNone o (AllPollable O.Served.can_poll (set_places self.new.served))) }
        ensures connections { self.new.tally.connections ≡ self.old.tally.connections }
        ensures counted { IfReady result
            (λ o. IfSome o (λ end. IfOk end (λ faults. faults ≤ self.old.tally.connections))) }
        ensures cause { IfReady result (λ o. IfSome o (λ end. IfErr end EndsGate)) }
        ensures armed { OnPending result (IsArmed cx.new) }
        ensures next { OnPending result
            (HasRoom self.new.tally.connections self.new.tally.together self.new.tally.taken self.new.tally.ended
            → Covers cx.new (TellsOfNext self.new.pause.is_on self.new.pause.sleep self.new.listener.now)) }
        ensures kept { Keeps cx.old cx.new }
    {
        if self.tally.has_room()
            && let Poll::Ready(accepted) = self.poll_stream(cx)
        {
            return match self.take(accepted) {
                Ok(()) => Poll::Ready(None),
                Err(fault) => Poll::Ready(Some(Err(fault))),
            };
        }
        if self.served.is_empty() {
            return self.rest();
        }
        match ready!(self.served.poll_next(cx)) {
            Some(ended) => {
                self.tally.end(&ended);
                Poll::Ready(None)
            }
            None => unreachable!(),
        }
    }

    /// What to do where nothing is served: wait for the next connection, or end.
    fn rest(&self) -> Poll<Option<Result<u64, EdgeFault>>>
        ensures waits { OnPending result
            (HasRoom self.now.tally.connections self.now.tally.together self.now.tally.taken self.now.tally.ended) }
        ensures ended { IfReady result (λ o. o ≡ Some (Ok self.now.tally.faults)) }
    {
        if self.tally.has_room() {
            return Poll::Pending;
        }
        Poll::Ready(Some(Ok(self.tally.faults)))
    }
}

impl<R: Clock, O: Opens> Future for Crowd<'_, R, O> {
    type Output = Result<u64, EdgeFault>;

    ghost can_poll = { λ c. AllPollable O.Served.can_poll (set_places c.served) };

    ghost needs = { λ c s. HasRoom c.tally.connections c.tally.together c.tally.taken c.tally.ended
        × TellsOfNext c.pause.is_on c.pause.sleep c.listener.now s };

    ghost gives = { λ c r. IfOk r (λ faults. faults ≤ c.tally.connections) × IfErr r EndsGate };

    fn poll(&mut self, cx: &mut Context<'_>) -> Poll<Result<u64, EdgeFault>> {
        for _ in 0..BUDGET {
            if let Some(end) = ready!(self.step(cx)) {
                return Poll::Ready(end);
            }
        }
        cx.yield_now()
    }
}
