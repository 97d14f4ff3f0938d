//! The target that a request for a URL names.
ghost use Rattle.std.specs.Prelude.{◌≡◌, IfOk, option_map};
ghost use Rattle.outgoing_requests.specs.Targets as spec;
ghost use Rattle.memento_time.specs.Text as text;

use std::alloc::{AllocError, Global};

/// The text before the authority and the slashes in front of it, in any case.
const SCHEME: &[u8] = b"http:";

fn is_slash(byte: u8) -> bool
    ensures { result ≡ spec.is_slash byte }
{
    byte == b'/' || byte == b'\\'
}

fn ends_authority(byte: u8) -> bool
    ensures { result ≡ spec.ends_authority byte }
{
    is_slash(byte) || byte == b'?'
}

fn before_fragment(rest: &[u8]) -> &[u8]
    ensures { result.now ≡ text.before_fragment rest.now }
{
    let end = rest
        .iter()
        .position(|byte| *byte == b'#')
        .unwrap_or(rest.len());
    &rest[..end]
}

fn behind_slashes(rest: &[u8]) -> &[u8]
    ensures { result.now ≡ spec.behind_slashes rest.now }
{
    let start = rest
        .iter()
        .position(|byte| !is_slash(*byte))
        .unwrap_or(rest.len());
    &rest[start..]
}

fn behind_authority(rest: &[u8]) -> &[u8]
    ensures { result.now ≡ spec.from_first spec.ends_authority rest.now }
{
    let start = rest
        .iter()
        .position(|byte| ends_authority(*byte))
        .unwrap_or(rest.len());
    &rest[start..]
}

fn without_slash(path: &[u8]) -> &[u8]
    ensures { result.now ≡ spec.without_slash path.now }
{
    match path {
        [first, rest @ ..] if is_slash(*first) => rest,
        _ => path,
    }
}

/// The target that a request for the URL names: the URL's own text after the authority, up to the fragment. `None` if
/// the URL doesn't begin with `http:`, in any case.
pub(crate) fn target_of(alloc: Global, url: &str) -> Result<Option<Vec<u8>>, AllocError>
    ensures { IfOk result (λ target. option_map (λ text. text.items) target ≡ spec.target_of url.now) }
{
    let Some((scheme, rest)) = url.as_bytes().split_at_checked(SCHEME.len()) else {
        return Ok(None);
    };
    if !scheme.eq_ignore_ascii_case(SCHEME) {
        return Ok(None);
    }
    let path = behind_authority(behind_slashes(before_fragment(rest)));
    let mut target = Vec::new(alloc);
    target.push(b'/')?;
    target.extend_from_slice(without_slash(path))?;
    Ok(Some(target))
}
