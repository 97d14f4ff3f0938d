//! Reads texts as URLs.
ghost use Rattle.std.specs.Prelude.{◌≡◌, None, Some, IfOk};
ghost use Rattle.url.specs.Parser.{Parsed, Gives, parse_url};
ghost use Rattle.url.specs.Parts.{Parts};
ghost use Rattle.url_texts.specs.Reading.{IsReading};

use std::alloc::{AllocError, Global};
use url::{ParseError, Url};

/// The URL that the text is, or `None` if it isn't one.
pub fn read_url(alloc: Global, text: &str) -> Result<Option<Url>, AllocError>
    ensures { IfOk result (λ url. IsReading (parse_url None text.now) url) }
{
    url_or_none(Url::parse(alloc, text))
}

/// The URL that the text names relative to this base, or `None` if it names none.
pub fn join_url(base: &Url, text: &str) -> Result<Option<Url>, AllocError>
    ensures { IfOk result (λ url. IsReading (parse_url (Some base.now) text.now) url) }
{
    url_or_none(base.join(text))
}

/// The answer of `url`, with `Overflow` counted as out of memory, since it says that no buffer holds the URL.
fn url_or_none(answer: Result<Url, ParseError>) -> Result<Option<Url>, AllocError>
    ensures { (parsed : Parsed Parts) → Gives answer parsed → IfOk result (λ url. IsReading parsed url) }
{
    match answer {
        Ok(url) => Ok(Some(url)),
        Err(ParseError::OutOfMemory | ParseError::Overflow) => Err(AllocError),
        Err(_) => Ok(None),
    }
}
