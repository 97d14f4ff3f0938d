//! The service that a gate's connections call.
ghost use Rattle.std.specs.Prelude.{◌≡◌, ◌⊎◌, IfOk, IfSome, None, is_some, true};
ghost use Rattle.tokio.specs.Timers.{sleep_source};
ghost use Rattle.timegate.specs.declared.request.Request.{Request as Asked};
ghost use Rattle.gate_server.specs.Responses.{IsRefusal, IsShown};
ghost use Rattle.gate_server.specs.Requests.{IsAskedBy};

use crate::answers::Answers;
use crate::binding::Bound;
use crate::faults::RespondFault;
use crate::holding::{Hold, Holding};
use crate::requests::request_of;
use crate::responses::{into_form, refusal};
use bytes::Bytes;
use futures::future::{Either, Ready};
use futures::task::{Context, Poll};
use futures::{Future, future, ready};
use http_body_util::Full;
use hyper::Response;
use hyper::body::Incoming;
use hyper::service::Service;
use memento_time::NoMemory;
use std::alloc::Global;
use std::convert::Infallible;
use std::sync::{Arc, Mutex, Wait};
use std::time::Clock;
use timegate::Request;

#[derive(Drop)]
struct Shared<G, R> {
    rt: R,
    alloc: Global,
    gate: Mutex<G>,
}

/// A gate behind a lock that a server's connections share.
#[derive(Drop)]
pub struct GateService<G, R> {
    shared: Arc<Shared<G, R>>,
    /// Where requests may be held.
    holding: Option<Holding>,
}

/// A request that is held until its reply is to be given.
#[derive(Drop)]
pub struct Held<G, R> {
    shared: Arc<Shared<G, R>>,
    request: Request,
    hold: Hold,
}

/// What comes of a call: a response, or a request that is held.
#[derive(Drop)]
enum Called<G, R> {
    Given(Response<Bytes>),
    Held(Held<G, R>),
}

impl<G: Answers, R: Wait + Drop> Shared<G, R> {
    /// The form of the reply that the gate gives.
    fn respond(&self, request: &Request) -> Result<Response<Bytes>, RespondFault>
        ensures form { IfOk result (IsShown G.shows request.now) }
        ensures closed { result ≡ Err RespondFault.Closed → G.may_close }
    {
        let reply = self.gate.lock(&self.rt).answer(request)?;
        Ok(into_form(self.alloc, reply)?)
    }

    /// The form of the reply that the gate gives, or `None` if it would rather give it later.
    fn respond_or_hold(
        &self,
        request: &Request,
        is_held: bool,
    ) -> Result<Option<Response<Bytes>>, RespondFault>
        ensures form { IfOk result (λ it. IfSome it (IsShown G.shows request.now)) }
        ensures closed { result ≡ Err RespondFault.Closed → G.may_close }
    {
        match self.gate.lock(&self.rt).answer_or_hold(request, is_held)? {
            Some(reply) => Ok(Some(into_form(self.alloc, reply)?)),
            None => Ok(None),
        }
    }

    /// The form of the reply to a request, or the response that stands for a fault.
    fn answer_now(&self, request: &Request) -> Response<Bytes>
        ensures { IsShown G.shows request.now result ⊎ IsRefusal result }
    {
        match self.respond(request) {
            Ok(response) => response,
            Err(_) => refusal(self.alloc),
        }
    }

    /// As `answer_now`, or `None` if the gate would rather answer later.
    fn answer_or_hold(&self, request: &Request, is_held: bool) -> Option<Response<Bytes>>
        ensures { IfSome result (λ response. IsShown G.shows request.now response ⊎ IsRefusal response) }
    {
        match self.respond_or_hold(request, is_held) {
            Ok(given) => given,
            Err(_) => Some(refusal(self.alloc)),
        }
    }
}

impl<G: Answers, R: Wait + Drop> GateService<G, R> {
    /// The service of a gate. Calls lock the gate by `rt`. If memory is refused, the gate is dropped.
    pub fn new(alloc: Global, rt: R, gate: G) -> Result<GateService<G, R>, NoMemory>
        ensures { IfOk result (λ service. service.holding ≡ None) }
    {
        let gate = Mutex::new(gate);
        let shared = Arc::new(alloc, Shared { rt, alloc, gate })?;
        Ok(GateService {
            shared,
            holding: None,
        })
    }

    /// Another owner of the same gate.
    pub(crate) fn share(&self) -> Result<GateService<G, R>, NoMemory> {
        let shared = Arc::try_clone(&self.shared)?;
        let holding = match &self.holding {
            Some(holding) => Some(holding.share()?),
            None => None,
        };
        Ok(GateService { shared, holding })
    }

    /// Another owner of the same gate, which holds a request as long as the gate would rather answer it later, up to so
    /// many seconds, and up to so many requests at once. The connections of `bound` are to be served by it, several at
    /// a time: each that waits keeps its place.
    pub fn holding(
        &self,
        bound: &Bound,
        seconds: u64,
        most: u64,
    ) -> Result<GateService<G, R>, NoMemory>
        ensures { IfOk result (λ service. is_some service.holding ≡ true) }
    {
        let shared = Arc::try_clone(&self.shared)?;
        let timers = bound.runtime.handle().time().clone()?;
        let holding = Holding::new(shared.alloc, timers, seconds, most)?;
        Ok(GateService {
            shared,
            holding: Some(holding),
        })
    }

    /// The form of the reply that the gate gives. May wait for the lock. After a fault, the gate is as its `answer`
    /// left it.
    pub fn respond(&self, request: &Request) -> Result<Response<Bytes>, RespondFault>
        ensures form { IfOk result (IsShown G.shows request.now) }
        ensures closed { result ≡ Err RespondFault.Closed → G.may_close }
    {
        self.shared.respond(request)
    }
}

impl<G: Answers, R: Wait + Clock + Drop> GateService<G, R> {
    /// The form of the reply to what was sent, or the response that stands for a fault; or the request, if it is held.
    fn begin<B>(&self, sent: &hyper::Request<B>) -> Called<G, R>
        ensures given { (response : _) → result ≡ Called.Given response → ((asked : Asked)
            × IsAskedBy sent.now asked × IsShown G.shows asked response) ⊎ IsRefusal response }
        ensures held { (held : _) → result ≡ Called.Held held → IsAskedBy sent.now held.request }
    {
        let shared = &*self.shared;
        let Ok(request) = request_of(shared.alloc, sent) else {
            return Called::Given(refusal(shared.alloc));
        };
        let Some(holding) = &self.holding else {
            return Called::Given(shared.answer_now(&request));
        };
        if let Some(response) = shared.answer_or_hold(&request, false) {
            return Called::Given(response);
        }
        // No reply was given, so that is made up for where the request can't be held.
        let (Some(hold), Ok(shared)) = (holding.begin(&shared.rt), Arc::try_clone(&self.shared))
        else {
            return Called::Given(shared.answer_now(&request));
        };
        Called::Held(Held {
            shared,
            request,
            hold,
        })
    }
}

impl<G: Answers, R: Wait + Clock + Drop> Held<G, R> {
    /// The response, if it is to be given now. Otherwise the timer is set to the next look.
    fn look(&mut self) -> Option<Response<Bytes>>
        ensures given { IfSome result (λ response. IsShown G.shows self.old.request response ⊎ IsRefusal response) }
        ensures request { self.new.request ≡ self.old.request }
    {
        let shared = &*self.shared;
        if !self.hold.go_on(&shared.rt) {
            return Some(shared.answer_now(&self.request));
        }
        shared.answer_or_hold(&self.request, true)
    }
}

impl<G: Answers, R: Wait + Clock + Drop> Future for Held<G, R> {
    type Output = Result<Response<Full<Bytes>>, Infallible>;

    ghost needs = { λ held s. s ≡ sleep_source held.hold.sleep };

    fn poll(&mut self, cx: &mut Context<'_>) -> Poll<Self::Output> {
        let _ = ready!(self.hold.sleep.poll_elapsed(cx));
        match self.look() {
            Some(response) => Poll::Ready(Ok(response.map(|body| Full::new(body)))),
            // The timer is armed by the next poll.
            None => cx.yield_now(),
        }
    }
}

impl<G: Answers, R: Wait + Clock + Drop, I: Drop> Service<hyper::Request<Incoming<I>>>
    for GateService<G, R> {
    type Response = Response<Full<Bytes>>;

    type Error = Infallible;

    type Future = Either<Ready<Result<Response<Full<Bytes>>, Infallible>>, Held<G, R>>;

    fn call(&self, sent: hyper::Request<Incoming<I>>) -> Self::Future {
        match self.begin(&sent) {
            Called::Given(response) => {
                Either::Left(future::ok(response.map(|body| Full::new(body))))
            }
            Called::Held(held) => Either::Right(held),
        }
    }
}
