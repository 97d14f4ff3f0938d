//! Originals: the addresses that clients ask for, and for which archives are asked.
ghost use Rattle.std.specs.Prelude.{◌≡◌, ◌⊎◌, ◌<◌, Some, IfOk, IfErr, Ok, Err, length};
ghost use Rattle.memento_time.specs.Text.{IsOriginal};
ghost use Rattle.url_texts.specs.Followed.{IsFollowed};
ghost use Rattle.timemap_reader.specs.Address.{clean_text};
ghost use Rattle.timemap_reader.specs.Original.{original_reading, within_limit, words_of};

use crate::address::{escape, is_http};
use memento_time::{CleanFault, Original};
use std::alloc::{AllocError, Global};
use std::error::Error;
use std::fmt;
use url::Position;
use url_texts::read_url;

/// Why a text names no original.
#[derive(Clone, Copy, Debug, PartialEq, Eq)]
pub enum OriginalFault {
    /// The text isn't a URL that `url` reads without a base.
    NotUrl,
    /// The URL's scheme is neither `http` nor `https`.
    NotHttp,
    /// The text, or the original that it names, has more than 4,096 bytes.
    TooLong,
    /// The allocator refused a growth.
    NoMemory,
}

impl fmt::Display for OriginalFault {
    ghost output = { λ fault. Some (words_of fault) };

    fn fmt<W: fmt::Write>(&self, f: &mut fmt::Formatter<W>) -> fmt::Result {
        match self {
            OriginalFault::NotUrl => f.write_str("not a URL"),
            OriginalFault::NotHttp => f.write_str("not an http or https URL"),
            OriginalFault::TooLong => f.write_str("an original of more than 4,096 bytes"),
            OriginalFault::NoMemory => f.write_str("no memory"),
        }
    }
}

impl Error for OriginalFault {}

impl From<AllocError> for OriginalFault {
    ghost use Rattle.std.specs.Prelude.{◌≡◌};
    ghost use Rattle.timemap_reader.specs.declared.original.OriginalFault.TheVariants.{NoMemory};

    ghost from_gives = { λ _ fault. fault ≡ NoMemory };

    fn from(_refused: AllocError) -> OriginalFault {
        OriginalFault::NoMemory
    }
}

/// The original that is written like this, once it has been made clean.
fn clean_original(alloc: Global, written: &[u8]) -> Result<Original, OriginalFault>
    requires { 0 < length written.now }
    ensures read { IfOk result (λ original. within_limit (clean_text written.now) ≡ Ok original) }
    ensures valid { IfOk result IsOriginal }
    ensures refused { IfErr result (λ fault.
        (within_limit (clean_text written.now) ≡ Err fault) ⊎ (fault ≡ OriginalFault.NoMemory)) }
{
    // Most are already clean.
    match Original::new(alloc, written) {
        Ok(original) => return Ok(original),
        Err(CleanFault::NotClean) => {}
        Err(CleanFault::NoMemory) => return Err(OriginalFault::NoMemory),
    }
    match Original::new(alloc, escape(alloc, written)?.as_bytes()) {
        Ok(original) => Ok(original),
        Err(CleanFault::NotClean) => Err(OriginalFault::TooLong),
        Err(CleanFault::NoMemory) => Err(OriginalFault::NoMemory),
    }
}

/// Reads the original that a text names: an http or https URL, as `url` reads it without a base and writes it, without
/// its fragment. What `url` writes is then made clean: each byte that isn't a visible ASCII character, and each `<`,
/// `>` and `"`, is written as `%` and two hexadecimal digits.
///
/// A text of more than 4,096 bytes is `TooLong`, and isn't looked at. As the last check, an original of more than 4,096
/// bytes is `TooLong` as well.
pub fn read_original(alloc: Global, text: &str) -> Result<Original, OriginalFault>
    ensures read { IfOk result (λ original. original_reading text.now ≡ Ok original) }
    // An original reads as itself.
    ensures kept { IfOk result (λ original. original_reading original ≡ Ok original) }
    ensures valid { IfOk result IsOriginal }
    // It begins with `http://` or `https://`, and has no fragment.
    ensures followed { IfOk result IsFollowed }
    ensures too_long { 4096 < length text.now → result ≡ Err OriginalFault.TooLong }
    // `NoMemory` can come at any later point.
    ensures refused { IfErr result (λ fault.
        (original_reading text.now ≡ Err fault) ⊎ (fault ≡ OriginalFault.NoMemory)) }
{
    if text.len() > Original::MAX_LEN {
        return Err(OriginalFault::TooLong);
    }
    let Some(url) = read_url(alloc, text)? else {
        return Err(OriginalFault::NotUrl);
    };
    if !is_http(&url) {
        return Err(OriginalFault::NotHttp);
    }
    let written = url.slice(Position::BeforeScheme, Position::AfterQuery);
    clean_original(alloc, written.as_bytes())
}
