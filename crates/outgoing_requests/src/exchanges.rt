//! One request over a fresh connection, and its answer.
ghost use Rattle.std.specs.Prelude.{◌≡◌, ◌≢◌, ◌≤◌, ◌<◌, ◌⊎◌, ◌↔◌, Ok, Err, IfOk, IfErr, IfSome, alloc_error, length};
ghost use Rattle.std.specs.Prelude.{codes, map, option_copied};
ghost use Rattle.http.specs.Request.{builder_result};
ghost use Rattle.http.specs.Steps.{AppendsField, StepsTo};
ghost use Rattle.http_header.specs.FieldValue.{plain_value};
ghost use Rattle.http_header.specs.HeaderMap.{get_all};
ghost use Rattle.http_header.specs.Token.{lowercase};
ghost use Rattle.http_body_util.specs.Collected.{collected_bytes};
ghost use Rattle.hyper.specs.Error.{kind_of};
ghost use Rattle.hyper.specs.declared.error.Kind.TheVariants.{OutOfMemory as HyperOutOfMemory};
ghost use Rattle.outgoing_requests.specs.Exchanges.{IsAnswerOf, IsRequestFor};
ghost use Rattle.outgoing_requests.specs.Hosts.{AreAllowed, IsListedText};

use crate::agents::Agent;
use crate::bodies::Counted;
use crate::hosts::{AllowedHost, allowed_addresses, is_listed};
use crate::patience::Patience;
use crate::targets::target_of;
use crate::waits::{Limit, while_connected};
use bytes::Bytes;
use harvester::{Answer, FetchFault, SocketRuntime};
use http::request::Builder;
use http_body_util::{BodyExt, Collected, Empty, Limited, LimitedError};
use hyper::client::conn::http1::handshake;
use hyper::{Request, header};
use memento_time::{Items, Octets};
use std::alloc::{AllocError, AllocGlobal, Global};
use std::hash::RandomState;
use std::net::{Net, SocketAddr, ToSocketAddrs};
use std::random::RandomSource;
use std::sync::Wait;
use std::sync::atomic::AtomicU64;
use std::time::{Clock, Instant};
use std::{io, vec};
use tokio::io::{AsyncRead, AsyncWrite};
use tokio::net;
use tokio::runtime::LocalRuntime;
use url::{Position, Url};
use url_texts::read_url;

/// How a URL is asked for.
#[derive(Clone, Copy)]
pub(crate) struct Manner<'a> {
    pub(crate) patience: Patience,
    /// The fewest bytes a second in which a body may come.
    pub(crate) rate: Option<u64>,
    /// When the walk ends that the URL belongs to.
    pub(crate) end: Option<Instant>,
    /// How the program names itself.
    pub(crate) agent: Option<&'a Agent>,
}

impl Manner<'_> {
    /// Asks with a patience, and with nothing else.
    pub(crate) fn of_patience(patience: Patience) -> Manner<'static> {
        Manner {
            patience,
            rate: None,
            end: None,
            agent: None,
        }
    }
}

/// The times until which the other side is waited for.
#[derive(Clone, Copy)]
struct Deadlines {
    /// For the connection and the head of the answer.
    head: Instant,
    /// For the whole answer.
    body: Instant,
}

impl Deadlines {
    /// The deadlines of an exchange that begins now. Both are at the end of the walk at the latest.
    fn of(clock: &impl Clock, manner: Manner<'_>) -> Result<Deadlines, FetchFault> {
        let now = Instant::now(clock).map_err(|error| fault_of(&error))?;
        let head = now.checked_add(manner.patience.for_head());
        let body = now.checked_add(manner.patience.for_body());
        let (Some(head), Some(body)) = (head, body) else {
            return Err(FetchFault::Failed);
        };
        match manner.end {
            Some(end) if end <= now => Err(FetchFault::Failed),
            Some(end) => Ok(Deadlines {
                head: head.min(end),
                body: body.min(end),
            }),
            None => Ok(Deadlines { head, body }),
        }
    }
}

/// Fetches a URL by `GET` over a fresh connection. A body of more than `most` bytes is `TooLong`. An https URL is
/// `Failed`, and so is one whose answer's head doesn't come within the patience and by the end of the walk. A body that
/// doesn't come so, and at the rate that it is asked at, is `Broken`. The name is looked up by std, without a time
/// limit. If there are hosts, a URL of another host is `Failed` before its name is looked up, and one whose name leads
/// to no allowed address is `Failed` before a connection is made.
pub(crate) fn get<R>(
    rt: &R,
    manner: Manner<'_>,
    hosts: Option<&[AllowedHost]>,
    url: &str,
    most: usize,
) -> Result<Answer, FetchFault>
where
    R: SocketRuntime,
    ensures within { IfOk result (λ answer. length answer.body ≤ most) }
    ensures listed { IfOk result (λ _. IfSome hosts.entry (λ listed. IsListedText listed.now url.now)) }
{
    let alloc = rt.alloc();
    let address = match read_url(alloc, url) {
        Ok(Some(address)) => address,
        Ok(None) => return Err(FetchFault::Failed),
        Err(_) => return Err(FetchFault::NoMemory),
    };
    let request = request_for(alloc, url, &address, manner.agent)?;
    let mut runtime = LocalRuntime::new(rt).map_err(|error| fault_of(&error))?;
    let addresses = addresses_of(rt, hosts, &address)?;
    let deadlines = Deadlines::of(rt, manner)?;
    let stream = connect(rt, &mut runtime, addresses, deadlines.head)?;
    let exchange = Exchange {
        most,
        deadlines,
        manner,
    };
    exchange.run(rt, &mut runtime, stream, request)
}

fn fault_of(error: &io::Error) -> FetchFault {
    match error.kind() {
        io::ErrorKind::OutOfMemory => FetchFault::NoMemory,
        _ => FetchFault::Failed,
    }
}

/// The fault for an error of a connection. If `hyper` ran out of memory, it is `NoMemory`.
fn fault_of_hyper(error: &hyper::Error) -> FetchFault
    ensures memory { (result ≡ FetchFault.NoMemory) ↔ (kind_of error.now ≡ HyperOutOfMemory) }
    ensures either { (result ≡ FetchFault.NoMemory) ⊎ (result ≡ FetchFault.Failed) }
{
    if error.is_out_of_memory() {
        FetchFault::NoMemory
    } else {
        FetchFault::Failed
    }
}

/// The fault where the head of an answer came, and the rest of it didn't.
fn broken(fault: FetchFault) -> FetchFault
    ensures { result ≢ FetchFault.Failed }
{
    match fault {
        FetchFault::Failed => FetchFault::Broken,
        FetchFault::Broken | FetchFault::TooLong | FetchFault::NoMemory => fault,
    }
}

/// Adds the name of the program, if it has one.
fn with_agent(builder: Builder, agent: Option<&Agent>) -> Builder
    ensures none { option_copied agent.entry ≡ None → builder_result result ≡ builder_result builder }
    ensures ok { IfSome agent.entry (λ name. StepsTo (builder_result builder) (builder_result result)
        (λ old new. AppendsField old.headers new.headers (λ x. x ≡ codes "user-agent")
        (λ x. x ≡ plain_value name.now))) }
    ensures others { IfSome agent.entry (λ _. StepsTo (builder_result builder) (builder_result result)
        (λ old new. new ≡ record old { headers = new.headers })) }
{
    match agent {
        Some(agent) => builder.header(header::USER_AGENT, agent.as_str()),
        None => builder,
    }
}

/// The request for a URL.
fn request_for(
    alloc: Global,
    url: &str,
    address: &Url,
    agent: Option<&Agent>,
) -> Result<Request<Empty<Bytes>>, FetchFault>
    ensures { IfOk result (IsRequestFor url.now address.now (option_copied agent.entry)) }
{
    let target = match target_of(alloc, url) {
        Ok(Some(target)) => target,
        Ok(None) => return Err(FetchFault::Failed),
        Err(_) => return Err(FetchFault::NoMemory),
    };
    let host = address.slice(Position::BeforeHost, Position::AfterPort);
    let builder = Request::get(alloc, target.as_slice())
        .header(header::HOST, host)
        .header(header::ACCEPT_ENCODING, "identity")
        .header(header::CONNECTION, "close");
    match with_agent(builder, agent).body(Empty::new()) {
        Ok(request) => Ok(request),
        Err(http::Error::OutOfMemory) => Err(FetchFault::NoMemory),
        Err(_) => Err(FetchFault::Failed),
    }
}

/// The addresses that may be connected to for a URL: those of its host, with its port. If there are hosts, the host
/// must be listed, and only the addresses that it leads to are given.
fn addresses_of(
    rt: &(impl Net + AllocGlobal),
    hosts: Option<&[AllowedHost]>,
    url: &Url,
) -> Result<Vec<SocketAddr>, FetchFault>
    ensures { IfOk result (λ addresses. IfSome hosts.entry (λ listed. AreAllowed listed.now url.now addresses.items)) }
{
    let Some(hosts) = hosts else {
        return look_up(rt, url);
    };
    if !is_listed(hosts, url) {
        return Err(FetchFault::Failed);
    }
    let Some(host) = url.host() else {
        return Err(FetchFault::Failed);
    };
    let found = look_up(rt, url)?;
    match allowed_addresses(rt.alloc(), &host, &found) {
        Ok(addresses) => Ok(addresses),
        Err(_) => Err(FetchFault::NoMemory),
    }
}

/// The addresses of a URL's host, with its port.
fn look_up(rt: &(impl Net + AllocGlobal), url: &Url) -> Result<Vec<SocketAddr>, FetchFault> {
    let (Some(host), Some(port)) = (url.host_str(), url.port_or_known_default()) else {
        return Err(FetchFault::Failed);
    };
    let addresses = (host, port)
        .to_socket_addrs(rt)
        .map_err(|error| fault_of(&error))?;
    addresses
        .collect(rt.alloc())
        .map_err(|_| FetchFault::NoMemory)
}

/// A connection to the first of the addresses that accepts one in time.
fn connect<R>(
    rt: &R,
    runtime: &mut LocalRuntime,
    addresses: Vec<SocketAddr>,
    deadline: Instant,
) -> Result<net::TcpStream, FetchFault>
where
    R: Wait + Clock + Net + RandomSource + AllocGlobal,
{
    for address in addresses {
        let connecting = net::TcpStream::connect(rt, address, runtime.handle().reactor());
        let Ok(limited) = runtime.handle().time().timeout_at(deadline, connecting) else {
            return Err(FetchFault::NoMemory);
        };
        let connected = runtime
            .block_on(rt, limited)
            .map_err(|error| fault_of(&error))?;
        if let Ok(Ok(stream)) = connected {
            return Ok(stream);
        }
    }
    Err(FetchFault::Failed)
}

/// What an exchange keeps to.
#[derive(Clone, Copy)]
struct Exchange<'a> {
    /// The most bytes of the body.
    most: usize,
    deadlines: Deadlines,
    manner: Manner<'a>,
}

impl Exchange<'_> {
    /// Sends the request and receives the whole answer.
    fn run<R, I>(
        self,
        rt: &R,
        runtime: &mut LocalRuntime,
        stream: I,
        request: Request<Empty<Bytes>>,
    ) -> Result<Answer, FetchFault>
    where
        R: Wait + Clock + RandomSource + AllocGlobal,
        I: AsyncRead + AsyncWrite,
        ensures { IfOk result (λ answer. length answer.body ≤ self.entry.most) }
    {
        let alloc = rt.alloc();
        let keys = RandomState::new(rt).map_err(|error| fault_of(&error))?;
        let (mut sender, connection) = match handshake(alloc, keys, stream) {
            Ok(ends) => ends,
            Err(error) => return Err(fault_of_hyper(&error)),
        };
        let response = sender.send_request(request);
        drop(sender);
        let (response, connection) = while_connected(
            rt,
            runtime,
            response,
            Some(connection),
            Limit::until(self.deadlines.head),
        )
        .map_err(|error| fault_of(&error))?;
        let (head, body) = match response {
            Ok(response) => response.into_parts(),
            Err(error) => return Err(fault_of_hyper(&error)),
        };
        let came = AtomicU64::new(0);
        let limit = Limit::for_body(
            rt,
            self.deadlines.body,
            self.manner.patience,
            self.manner.rate,
            &came,
        )
        .map_err(|error| fault_of(&error))?;
        let body = Limited::new(Counted::new(body, &came), self.most).collect(alloc);
        let (collected, _connection) = while_connected(
            rt, runtime, body, connection, limit,
        ).map_err(|error| broken(fault_of(&error)))?;
        match collected {
            Ok(collected) => within(answer_of(alloc, &head, collected), self.most),
            Err(LimitedError::LengthLimit) => Err(FetchFault::TooLong),
            Err(LimitedError::Body(error)) => Err(broken(fault_of_hyper(&error))),
        }
    }
}

fn within(answer: Result<Answer, AllocError>, most: usize) -> Result<Answer, FetchFault>
    ensures ok { IfOk result (λ taken. (answer ≡ Ok taken) × (length taken.body ≤ most)) }
    ensures long { result ≡ Err FetchFault.TooLong → IfOk answer (λ taken. most < length taken.body) }
    ensures memory { result ≡ Err FetchFault.NoMemory → answer ≡ Err alloc_error }
    ensures never { ¬ (result ≡ Err FetchFault.Failed) }
{
    match answer {
        Ok(answer) if answer.body.as_slice().len() <= most => Ok(answer),
        Ok(_) => Err(FetchFault::TooLong),
        Err(_) => Err(FetchFault::NoMemory),
    }
}

/// The values of a response's fields with this name, in order.
fn values_of(
    alloc: Global,
    head: &http::response::Parts,
    name: &str,
) -> Result<Vec<Octets>, AllocError>
    ensures { IfOk result (λ values. values.items ≡ map (λ v. v.bytes) (get_all head.now.headers (lowercase name.now))) }
{
    let mut values = Vec::new(alloc);
    for value in head.headers.get_all(name) {
        let value = value.as_bytes().to_vec(alloc)?;
        values.push(Octets::of(value))?;
    }
    Ok(values)
}

fn answer_of(
    alloc: Global,
    head: &http::response::Parts,
    collected: Collected,
) -> Result<Answer, AllocError>
    ensures { IfOk result (IsAnswerOf head.now (collected_bytes collected)) }
{
    let encoding = values_of(alloc, head, "content-encoding")?;
    let retry_after = values_of(alloc, head, "retry-after")?;
    let body = body_of(alloc, collected)?;
    Ok(Answer {
        status: head.status.as_u16(),
        encoding: Items::of(encoding),
        retry_after: Items::of(retry_after),
        body: Octets::of(body),
    })
}

/// The bytes of a body, copied at once. `BytesMut::into_vec` would move them to the front of their block one by one.
fn body_of(alloc: Global, collected: Collected) -> Result<Vec<u8>, AllocError>
    ensures { IfOk result (λ body. body.items ≡ collected_bytes collected) }
{
    let bytes = collected.to_bytes()?;
    bytes.as_slice().to_vec(alloc)
}
