//! Replies, as they appear in the head and the body of an HTTP response.
ghost use Rattle.std.specs.Prelude.{◌≡◌, Some};
ghost use Rattle.timegate.specs.Reply.{header_name};

use memento_time::{Items, Octets};
use std::fmt;

/// A header field of a reply.
#[derive(Clone, Copy, Debug, PartialEq, Eq)]
pub enum Header {
    Allow,
    Vary,
    Location,
    Link,
    ContentType,
}

impl Header {
    /// The field's name, such as `Content-Type`.
    pub fn name(self) -> &'static str
        ensures { result.now ≡ header_name self }
    {
        match self {
            Header::Allow => "Allow",
            Header::Vary => "Vary",
            Header::Location => "Location",
            Header::Link => "Link",
            Header::ContentType => "Content-Type",
        }
    }
}

impl fmt::Display for Header {
    ghost output = { λ header. Some (header_name header) };

    fn fmt<W: fmt::Write>(&self, f: &mut fmt::Formatter<W>) -> fmt::Result {
        f.write_str(self.name())
    }
}

/// The reply to a client. The headers are in the order of `Header`, each at most once.
#[derive(Debug, Drop)]
pub struct Reply {
    pub status: u16,
    pub headers: Items<(Header, Octets)>,
    pub body: Octets,
}
