//! Serves a gate over a socket.
ghost use Rattle.std.specs.Prelude.{◌≡◌, ◌≤◌, ◌⊎◌, IfErr, IfOk};

use crate::answers::Answers;
use crate::binding::Bound;
use crate::faults::EdgeFault;
use crate::services::GateService;
use crate::timers::GateTimer;
use hyper::rt::Timer;
use hyper::server::conn::http1::Builder;
use std::alloc::AllocGlobal;
use std::hash::RandomState;
use std::random::RandomSource;
use std::sync::Wait;
use std::time::{Clock, Duration};
use std::{io, thread};
use tokio::io::{AsyncRead, AsyncWrite};
use tokio::net::TcpStream;
use tokio::runtime::LocalRuntime;
use tokio::time::Handle;

/// The most seconds that a client may take for the head of a request, counted from when its connection was accepted or
/// from the reply before.
const HEAD_SECONDS: u64 = 10;

/// How many milliseconds to wait where a connection can't be accepted for the moment.
pub(crate) const ACCEPT_PAUSE: u64 = 100;

const ENOMEM: i32 = 12;

const ENFILE: i32 = 23;

const EMFILE: i32 = 24;

const ECONNABORTED: i32 = 103;

const ENOBUFS: i32 = 105;

/// The faults of an accept after which a later one may succeed.
const PASSING: [i32; 5] = [ENOMEM, ENFILE, EMFILE, ECONNABORTED, ENOBUFS];

/// Serves this many connections, one after the other, and returns how many of them ended with a connection fault.
///
/// Each request gets what `GateService::respond` gives, or 503 with an empty body if that is a fault. A connection is
/// served until its client closes it or takes too long for the head of a request. If no connection can be accepted for
/// the moment, as the system has no descriptor or no memory for it or its client is gone, the gate waits a little and
/// goes on; that counts as no connection. Any other fault of the socket ends the gate.
pub fn serve_gate<R, G>(
    rt: &R,
    bound: &mut Bound,
    service: &GateService<G, R>,
    connections: u64,
) -> Result<u64, EdgeFault>
where
    R: Wait + Clock + RandomSource + AllocGlobal + Clone + Drop,
    G: Answers,
    ensures counted { IfOk result (λ faults. faults ≤ connections) }
    ensures cause { IfErr result (λ fault. (fault ≡ EdgeFault.Accept) ⊎ (fault ≡ EdgeFault.NoMemory)) }
{
    let http = http_of(rt, bound.runtime.handle().time())?;
    let mut faults = 0u64;
    for _ in 0..connections {
        let stream = accept(rt, bound)?;
        if !serve_connection(rt, &mut bound.runtime, &http, stream, service.share()?)? {
            faults = faults.saturating_add(1);
        }
    }
    Ok(faults)
}

/// The settings of connections.
pub(crate) fn http_of<R>(rt: &R, timers: &Handle) -> Result<Builder<GateTimer<R>>, EdgeFault>
where
    R: Clock + RandomSource + AllocGlobal + Clone + Drop,
    ensures cause { IfErr result (λ fault. (fault ≡ EdgeFault.Accept) ⊎ (fault ≡ EdgeFault.NoMemory)) }
{
    let keys = RandomState::new(rt).map_err(|error| EdgeFault::of_accepting(&error))?;
    let timer = GateTimer::new(rt.clone()?, timers.clone()?);
    let mut http = Builder::new(rt.alloc(), keys).timer(timer);
    http.header_read_timeout(Some(Duration::from_secs(HEAD_SECONDS)));
    Ok(http)
}

/// The next connection.
fn accept<R>(rt: &R, bound: &mut Bound) -> Result<TcpStream, EdgeFault>
where
    R: Wait + Clock + RandomSource + AllocGlobal,
    ensures { IfErr result (λ fault. (fault ≡ EdgeFault.Accept) ⊎ (fault ≡ EdgeFault.NoMemory)) }
{
    for _ in rt.forever() {
        let accepted = bound
            .runtime
            .block_on(rt, bound.listener.accept())
            .map_err(|error| EdgeFault::of_accepting(&error))?;
        match accepted {
            Ok((stream, _peer)) => return Ok(stream),
            Err(error) if is_passing(&error) => {
                thread::sleep(rt, Duration::from_millis(ACCEPT_PAUSE));
            }
            Err(error) => return Err(EdgeFault::of_accepting(&error)),
        }
    }
    unreachable!()
}

/// Whether a connection may be accepted later: the process or the system has as many open files as it may, there is no
/// memory for another connection, or the client was gone before it was accepted (`accept(2)`).
pub(crate) fn is_passing(error: &io::Error) -> bool {
    match error.raw_os_error() {
        Some(code) => PASSING.contains(&code),
        None => false,
    }
}

/// Serves one connection to its end, and returns whether it ended well.
fn serve_connection<R, G, I, T>(
    rt: &R,
    runtime: &mut LocalRuntime,
    http: &Builder<T>,
    stream: I,
    service: GateService<G, R>,
) -> Result<bool, EdgeFault>
where
    R: Wait + Clock + RandomSource + AllocGlobal + Drop,
    G: Answers,
    I: AsyncRead + AsyncWrite,
    T: Timer,
    ensures { IfErr result (λ fault. (fault ≡ EdgeFault.Accept) ⊎ (fault ≡ EdgeFault.NoMemory)) }
{
    let connection = http.serve_connection(stream, service);
    let ended = runtime
        .block_on(rt, connection)
        .map_err(|error| EdgeFault::of_accepting(&error))?;
    Ok(ended.is_ok())
}
