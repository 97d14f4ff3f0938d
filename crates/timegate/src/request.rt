//! Requests.
ghost use Rattle.std.specs.Prelude.{◌≡◌};
ghost use Rattle.timegate.specs.Route.{is_get, is_head};

use memento_time::{Items, Octets};

/// What a client asks, as it appears in the head of an HTTP request.
#[derive(Debug, Drop)]
pub struct Request {
    /// The method; methods are case-sensitive.
    pub method: Octets,
    /// The path and the query.
    pub target: Octets,
    /// The values of the header fields `Accept-Datetime` (RFC 7089, section 2.1.1).
    pub asked: Items<Octets>,
}

impl Request {
    /// Whether the method is GET. Methods are case-sensitive.
    pub fn is_get(&self) -> bool
        ensures { result ≡ is_get self.now }
    {
        self.method.as_slice() == b"GET".as_slice()
    }

    /// Whether the method is HEAD. Methods are case-sensitive.
    pub fn is_head(&self) -> bool
        ensures { result ≡ is_head self.now }
    {
        self.method.as_slice() == b"HEAD".as_slice()
    }
}
