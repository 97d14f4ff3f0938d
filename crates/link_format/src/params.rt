//! The parameters of a link, read again from its text.
ghost use Rattle.std.specs.Prelude.{◌≡◌, ◌<◌, [], ◌∷◌, length, option_map, IfOk, IfSome, IfNone, false, Some, None};
ghost use Rattle.std.specs.Option.{option_or};
ghost use Rattle.std.specs.List.{slice_get};
ghost use Rattle.std.specs.Cow.{cow_slice_items};
ghost use Rattle.link_format.specs.Scan.{params_of, quoted_bytes};
ghost use Rattle.link_format.specs.Spans.{meant_bytes, param_of, params_from, value_from};
ghost use Rattle.link_format.specs.Values.{first_value, same_name, value_or_empty};

use crate::scan::next_param;
use crate::spans::{ParamSpan, ValueSpan};
use std::alloc::{AllocError, Global};
use std::borrow::CowSlice;

/// The name of the parameter `k`, counted from 0.
pub(crate) fn nth_name(text: &[u8], k: usize) -> &[u8]
    requires { k < length (params_of text.now) }
    ensures { option_map (λ p. p.name) (slice_get (params_of text.now) k) ≡ Some result.now }
{
    let mut rest = text;
    let mut left = k;
    loop {
        match next_param(rest) {
            Some((found, after)) => {
                if left == 0 {
                    return found.name;
                }
                left -= 1;
                rest = after;
            }
            None => unreachable!(),
        }
    }
}

/// Whether the names are the same without regard to ASCII case.
#[inline(always)]
fn is_same_name(a: &[u8], b: &[u8]) -> bool
    ensures { result ≡ same_name a.now b.now }
{
    a.eq_ignore_ascii_case(b)
}

/// The bytes that a quoted text stands for, up to the closing quote.
fn unquote(alloc: Global, text: &[u8]) -> Result<Vec<u8>, AllocError>
    ensures { IfOk result (λ v. v.items ≡ quoted_bytes false text.now) }
{
    let mut out = Vec::new(alloc);
    let mut rest = text;
    let mut escaped = false;
    while let [b, tail @ ..] = rest {
        if !escaped && *b == b'"' {
            break;
        }
        if !escaped && *b == b'\\' {
            escaped = true;
        } else {
            out.push(*b)?;
            escaped = false;
        }
        rest = tail;
    }
    Ok(out)
}

/// The bytes that a value stands for: a slice of the text, or a copy if something in it is escaped.
pub(crate) fn value_bytes(
    alloc: Global,
    value: Option<ValueSpan<'_>>,
) -> Result<CowSlice<'_, u8, Global>, AllocError>
    ensures { IfOk result (λ bytes. cow_slice_items bytes
        ≡ value_or_empty (option_map meant_bytes value.entry)) }
{
    match value {
        None => Ok(CowSlice::Borrowed(&[])),
        Some(ValueSpan::Plain(text)) => Ok(CowSlice::Borrowed(text)),
        Some(ValueSpan::Escaped(text)) => Ok(CowSlice::Owned(unquote(alloc, text)?)),
    }
}

/// The first parameter of this name.
pub(crate) fn find_param<'a>(text: &'a [u8], name: &[u8]) -> Option<ParamSpan<'a>>
    ensures none { IfNone result (first_value name.now (params_of text.now) ≡ None) }
    ensures some { IfSome result (λ found. first_value name.now (params_of text.now)
        ≡ Some (value_or_empty (option_map meant_bytes found.value))) }
{
    let mut rest = text;
    while let Some((found, after)) = next_param(rest) {
        if is_same_name(found.name, name) {
            return Some(found);
        }
        rest = after;
    }
    None
}

/// The parameter that is already held, or else the next one if it has the name.
#[inline(always)]
fn first_of<'a>(
    held: Option<ParamSpan<'a>>,
    next: ParamSpan<'a>,
    name: &[u8],
) -> Option<ParamSpan<'a>>
    ensures { value_from result ≡ option_or (value_from held.entry)
        (first_value name.now (param_of next.entry ∷ [])) }
{
    match held {
        Some(_) => held,
        None => {
            if is_same_name(next.name, name) {
                Some(next)
            } else {
                None
            }
        }
    }
}

/// The parameter that is already held, or else the one that was found if it has the name.
#[inline(always)]
pub(crate) fn first_found<'a>(
    held: Option<ParamSpan<'a>>,
    found: Option<ParamSpan<'a>>,
    name: &[u8],
) -> Option<ParamSpan<'a>>
    ensures { value_from result ≡ option_or (value_from held.entry) (first_value name.now (params_from found.entry)) }
{
    match found {
        Some(next) => first_of(held, next, name),
        None => held,
    }
}

/// The first parameters of two names, found in one pass.
pub(crate) fn find_params<'a>(
    text: &'a [u8],
    first: &[u8],
    second: &[u8],
) -> (Option<ParamSpan<'a>>, Option<ParamSpan<'a>>)
    ensures first { value_from result.0 ≡ first_value first.now (params_of text.now) }
    ensures second { value_from result.1 ≡ first_value second.now (params_of text.now) }
{
    let mut of_first = None;
    let mut of_second = None;
    let mut rest = text;
    while let Some((next, after)) = next_param(rest) {
        of_first = first_of(of_first, next, first);
        of_second = first_of(of_second, next, second);
        if of_first.is_some() && of_second.is_some() {
            break;
        }
        rest = after;
    }
    (of_first, of_second)
}
