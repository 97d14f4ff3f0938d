//! What a request asks for.
ghost use Rattle.std.specs.Prelude.{◌≡◌, true, false, nat_eq, drop, length, option_map, IfOk, IfSome, IfNone};
ghost use Rattle.std.specs.List.{starts_with};
ghost use Rattle.timegate.specs.Route.{is_get, is_head, is_state, is_whole_delta, is_timegate, IsAsked, original_at};
ghost use Rattle.timegate.specs.Route.{original_in, cursor_at, delta_route, timegate_route, page_in, map_route};
ghost use Rattle.timegate.specs.Route.{route_of};

use crate::request::Request;
use memento_time::{Moment, NoMemory, Octets, Original};
use replica_exchange::Cursor;
use std::alloc::Global;
use std::str;
use text_fields::{behind, read_decimal, split_once};
use timemap_reader::{OriginalFault, read_original};

/// What a request asks for, or why it is refused.
#[derive(Debug, Drop)]
pub enum Route {
    BadMethod,
    /// The state bytes.
    State,
    /// The delta from a cursor, or from none.
    Delta(Option<Cursor>),
    NoRoute,
    BadOriginal,
    BadDatetime,
    /// The TimeGate of an original, and the moment that is asked for, if one is.
    TimeGate(Original, Option<Moment>),
    /// The TimeMap of an original.
    TimeMap(Original),
    /// The page with this number of an original's TimeMap.
    Page(u64, Original),
}

fn is_state(request: &Request) -> bool
    ensures { result ≡ is_state request.now }
{
    request.target.as_slice() == b"/state".as_slice()
}

fn is_whole_delta(request: &Request) -> bool
    ensures { result ≡ is_whole_delta request.now }
{
    request.target.as_slice() == b"/delta".as_slice()
}

/// The cursor that bytes name: its incarnation, a slash, and its number.
fn cursor_at(bytes: &[u8]) -> Option<Cursor>
    ensures { result ≡ cursor_at bytes.now }
{
    let (incarnation, number) = split_once(bytes, b'/')?;
    Some(Cursor {
        incarnation: read_decimal(incarnation)?,
        number: read_decimal(number)?,
    })
}

/// The delta from a cursor, if there is one.
fn delta_route(cursor: Option<Cursor>) -> Route
    ensures { result ≡ delta_route cursor }
{
    match cursor {
        Some(cursor) => Route::Delta(Some(cursor)),
        None => Route::NoRoute,
    }
}

pub(crate) fn is_timegate(request: &Request) -> bool
    ensures { result ≡ is_timegate request.now }
{
    request.target.as_slice().starts_with(b"/timegate/")
}

/// The original that bytes name.
pub fn original_at(alloc: Global, bytes: &[u8]) -> Result<Option<Original>, NoMemory>
    ensures read { IfOk result (λ original. original ≡ original_at bytes.now) }
    ensures kept { IfOk result (λ original. IfSome original IsAsked) }
{
    let Ok(text) = str::from_utf8(bytes) else {
        return Ok(None);
    };
    match read_original(alloc, text) {
        Ok(original) => Ok(Some(original)),
        Err(OriginalFault::NoMemory) => Err(NoMemory),
        Err(_) => Ok(None),
    }
}

/// The TimeGate of the original, by the values of `Accept-Datetime`.
fn timegate_route(asked: &[Octets], original: Original) -> Route
    ensures route { result ≡ timegate_route asked.now original }
    ensures original { IfSome (original_in result) (λ o. o ≡ original) }
{
    match asked {
        [] => Route::TimeGate(original, None),
        [value] => match Moment::read_asked(value.as_slice()) {
            Some(moment) => Route::TimeGate(original, Some(moment)),
            None => Route::BadDatetime,
        },
        _ => Route::BadDatetime,
    }
}

/// The number of a page and what follows it, if the bytes begin with such a number.
fn page_in(bytes: &[u8]) -> Option<(u64, &[u8])>
    ensures { option_map (λ page. (page.0, page.1.now)) result ≡ page_in bytes.now }
{
    let (number, rest) = split_once(behind(b"page/", bytes)?, b'/')?;
    Some((read_decimal(number)?, rest))
}

/// A page of a TimeMap, if the bytes begin with its number; otherwise the TimeMap of the original that they name.
fn map_route(alloc: Global, bytes: &[u8]) -> Result<Route, NoMemory>
    ensures route { IfOk result (λ route. route ≡ map_route bytes.now) }
    ensures kept { IfOk result (λ route. IfSome (original_in route) IsAsked) }
{
    match page_in(bytes) {
        Some((number, rest)) => match original_at(alloc, rest)? {
            None => Ok(Route::BadOriginal),
            Some(original) => Ok(Route::Page(number, original)),
        },
        None => match original_at(alloc, bytes)? {
            None => Ok(Route::BadOriginal),
            Some(original) => Ok(Route::TimeMap(original)),
        },
    }
}

/// What the request asks for: the first refusal that fits, or else the TimeGate, the TimeMap or a page of it.
#[tactic(auto, unfolding(crate::specs::Route::route_of))]
pub(crate) fn route_of(alloc: Global, request: &Request) -> Result<Route, NoMemory>
    ensures route { IfOk result (λ route. route ≡ route_of request.now) }
    ensures kept { IfOk result (λ route. IfSome (original_in route) IsAsked) }
{
    if !request.is_get() && !request.is_head() {
        return Ok(Route::BadMethod);
    }
    if is_state(request) {
        return Ok(Route::State);
    }
    if is_whole_delta(request) {
        return Ok(Route::Delta(None));
    }
    let target = request.target.as_slice();
    if let Some(cursor) = behind(b"/delta/", target) {
        return Ok(delta_route(cursor_at(cursor)));
    }
    if let Some(original) = behind(b"/timegate/", target) {
        return match original_at(alloc, original)? {
            None => Ok(Route::BadOriginal),
            Some(original) => Ok(timegate_route(request.asked.as_slice(), original)),
        };
    }
    if let Some(listing) = behind(b"/timemap/link/", target) {
        return map_route(alloc, listing);
    }
    Ok(Route::NoRoute)
}
