//! What the status' address replies.
ghost use Rattle.std.specs.Prelude.{◌≡◌, ◌∷◌, ◌||◌, [], IfOk, codes};
ghost use Rattle.timegate.specs.declared.reply.Header.TheVariants.{Allow as Methods, ContentType as Media};
ghost use Rattle.timegate.specs.Route.{is_get, is_head};
ghost use Rattle.timegate.specs.Reply.{reply_with, Headers};
ghost use Rattle.service_status.specs.Replies as spec;
ghost use Rattle.service_status.specs.Replies.{text_reply, reply_of};

use crate::status::Status;
use crate::writing::write_status;
use memento_time::{Items, NoMemory, Octets};
use std::alloc::Global;
use timegate::{Header, Reply, Request};

/// The header of a text of this type.
fn media_header(alloc: Global, media: &[u8]) -> Result<Vec<(Header, Octets)>, NoMemory>
    ensures { IfOk result (λ headers. headers.items ≡ (Media, media.now) ∷ []) }
{
    let mut headers = Vec::new(alloc);
    headers.push((Header::ContentType, Octets::from_slice(alloc, media)?))?;
    Ok(headers)
}

/// A reply with these headers. A HEAD gets no body.
fn reply_with(
    alloc: Global,
    request: &Request,
    status: u16,
    headers: Vec<(Header, Octets)>,
    body: Vec<u8>,
) -> Reply
    ensures { result ≡ reply_with request.now status headers.items body.items }
{
    let body = if request.is_head() {
        Vec::new(alloc)
    } else {
        body
    };
    Reply {
        status,
        headers: Items::of(headers),
        body: Octets::of(body),
    }
}

/// A short text.
fn text_reply(alloc: Global, request: &Request, status: u16, text: &[u8]) -> Result<Reply, NoMemory>
    ensures { IfOk result (λ reply. reply ≡ text_reply request.now status text.now) }
{
    let headers = media_header(alloc, b"text/plain")?;
    let body = Vec::from_slice(alloc, text)?;
    Ok(reply_with(alloc, request, status, headers, body))
}

/// The text of a status.
fn metrics_reply(alloc: Global, request: &Request, status: &Status) -> Result<Reply, NoMemory>
    ensures { IfOk result (λ reply. reply ≡ spec.metrics_reply request.now status.now) }
{
    let headers = media_header(alloc, b"text/plain; version=0.0.4")?;
    let body = write_status(alloc, status)?;
    Ok(reply_with(alloc, request, 200, headers, body))
}

/// Whether something is published.
fn health_reply(alloc: Global, request: &Request, status: &Status) -> Result<Reply, NoMemory>
    ensures { IfOk result (λ reply. reply ≡ spec.health_reply request.now status.now) }
{
    if status.is_shown {
        text_reply(alloc, request, 200, b"ok\n")
    } else {
        text_reply(alloc, request, 503, b"nothing published\n")
    }
}

/// The methods that are allowed.
fn method_reply(alloc: Global, request: &Request) -> Result<Reply, NoMemory>
    ensures { IfOk result (λ reply. reply ≡ spec.method_reply request.now) }
{
    let mut headers = Vec::new(alloc);
    headers.push((Header::Allow, Octets::from_slice(alloc, b"GET, HEAD")?))?;
    headers.push((
        Header::ContentType,
        Octets::from_slice(alloc, b"text/plain")?,
    ))?;
    let body = Vec::from_slice(alloc, b"bad method\n")?;
    Ok(reply_with(alloc, request, 405, headers, body))
}

/// The reply of a service with this status: `/metrics` and `/health` are answered, by GET and HEAD.
#[tactic(auto, unfolding(crate::specs::Replies::reply_of))]
pub fn reply_to(alloc: Global, status: &Status, request: &Request) -> Result<Reply, NoMemory>
    ensures { IfOk result (λ reply. reply ≡ reply_of status.now request.now) }
{
    if !request.is_get() && !request.is_head() {
        return method_reply(alloc, request);
    }
    let target = request.target.as_slice();
    if target == b"/metrics".as_slice() {
        return metrics_reply(alloc, request, status);
    }
    if target == b"/health".as_slice() {
        return health_reply(alloc, request, status);
    }
    text_reply(alloc, request, 404, b"no such route\n")
}
