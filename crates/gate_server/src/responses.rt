//! The HTTP response of a reply.
ghost use Rattle.std.specs.Prelude.{◌≡◌, IfOk};
ghost use Rattle.gate_server.specs.Responses.{IsFormOf, IsHeadOf, IsRefusal};

use crate::faults::FormFault;
use bytes::Bytes;
use http::response::Parts;
use http::{HeaderName, HeaderValue, Response, StatusCode};
use std::alloc::Global;
use timegate::Reply;

/// The head of the response.
fn head(alloc: Global, reply: &Reply) -> Result<Parts, FormFault>
    ensures { IfOk result (IsHeadOf reply.now) }
{
    let mut head = Parts::new(alloc);
    head.status = StatusCode::from_u16(reply.status).map_err(|_| FormFault::NoForm)?;
    for (header, value) in reply.headers.as_slice() {
        let name = HeaderName::from_bytes(alloc, header.name().as_bytes())?;
        let value = HeaderValue::from_bytes(alloc, value.as_slice())?;
        head.headers.append(name, value)?;
    }
    Ok(head)
}

/// The response with the reply's status, headers and body. `NoForm` if `http` refuses a part of the reply.
pub fn form(alloc: Global, reply: &Reply) -> Result<Response<Bytes>, FormFault>
    ensures { IfOk result (IsFormOf reply.now) }
{
    let head = head(alloc, reply)?;
    let body = Bytes::copy_from_slice(alloc, reply.body.as_slice())?;
    Ok(Response::from_parts(head, body))
}

/// The form of a reply that is no longer needed, so that its body isn't copied.
pub(crate) fn into_form(alloc: Global, reply: Reply) -> Result<Response<Bytes>, FormFault>
    ensures { IfOk result (IsFormOf reply) }
{
    let head = head(alloc, &reply)?;
    let Ok(body) = Bytes::from_vec(reply.body.into_vec()) else {
        return Err(FormFault::NoMemory);
    };
    Ok(Response::from_parts(head, body))
}

/// The response that stands for a fault. Takes no memory.
pub(crate) fn refusal(alloc: Global) -> Response<Bytes>
    ensures { IsRefusal result }
{
    let mut refusal = Response::new(alloc, Bytes::new());
    *refusal.status_mut() = StatusCode::SERVICE_UNAVAILABLE;
    refusal
}
