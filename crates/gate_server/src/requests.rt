//! What an HTTP request asks of a gate.
ghost use Rattle.std.specs.Prelude.{◌≡◌, IfOk};
ghost use Rattle.gate_server.specs.Requests.{IsAskedBy, target_of};

use memento_time::{Items, NoMemory, Octets};
use std::alloc::Global;
use timegate::Request;

fn target(uri: &http::Uri) -> &str
    ensures { result.now ≡ target_of uri.now }
{
    match uri.path_and_query() {
        Some(both) => both.as_str(),
        None => "",
    }
}

/// What a request asks: its method, its path with the query, and the values of `Accept-Datetime` (RFC 7089, section
/// 2.1.1).
pub fn request_of<B>(alloc: Global, sent: &http::Request<B>) -> Result<Request, NoMemory>
    ensures { IfOk result (IsAskedBy sent.now) }
{
    let method = Octets::from_slice(alloc, sent.method().as_str().as_bytes())?;
    let target = Octets::from_slice(alloc, target(sent.uri()).as_bytes())?;
    let mut values = Vec::new(alloc);
    for value in sent.headers().get_all("accept-datetime") {
        values.push(Octets::from_slice(alloc, value.as_bytes())?)?;
    }
    Ok(Request {
        method,
        target,
        asked: Items::of(values),
    })
}
