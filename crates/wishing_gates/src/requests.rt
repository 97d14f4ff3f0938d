//! What a request wishes for.
ghost use Rattle.std.specs.Prelude.{◌≡◌, ◌||◌, true, false, nat_eq, drop, length, IfOk, IfSome, IfNone};
ghost use Rattle.std.specs.List.{starts_with};
ghost use Rattle.timegate.specs.Route.{IsAsked, is_get, is_head, original_at};
ghost use Rattle.wishing_gates.specs.Asked as spec;
ghost use Rattle.wishing_gates.specs.Asked.{asked_in, gate_original, listing_original};

use memento_time::{Moment, NoMemory, Octets, Original};
use std::alloc::Global;
use text_fields::behind;
use timegate::{Request, original_at};
use wish_list::AskedOriginal;

/// Whether the target is that of a page of a TimeMap, or begins like one.
fn is_page(request: &Request) -> bool
    ensures { result ≡ spec.is_page request.now }
{
    request
        .target
        .as_slice()
        .starts_with(b"/timemap/link/page/")
}

/// Whether the method is one that gates answer.
fn is_answered(request: &Request) -> bool
    ensures { result ≡ (is_get request.now || is_head request.now) }
{
    let method = request.method.as_slice();
    method == b"GET".as_slice() || method == b"HEAD".as_slice()
}

/// Whether a TimeGate can be asked with these values of `Accept-Datetime`.
fn is_dated(asked: &[Octets]) -> bool
    ensures { result ≡ spec.is_dated asked.now }
{
    match asked {
        [] => true,
        [value] => Moment::read_asked(value.as_slice()).is_some(),
        _ => false,
    }
}

/// What stands behind the front of a TimeGate's or a TimeMap's target.
pub(crate) fn named(target: &[u8]) -> Option<&[u8]> {
    match behind(b"/timegate/", target) {
        Some(named) => Some(named),
        None => behind(b"/timemap/link/", target),
    }
}

/// An original that a request names, to be wished for.
#[tactic(auto, using(crate::proofs::AskedLemmas::read_of_asked))]
fn to_wish(original: Original) -> AskedOriginal
    requires { IsAsked original }
    ensures { result ≡ original }
{
    AskedOriginal::new(original)
}

/// The original that bytes name, which may be wished for.
pub fn wished_at(alloc: Global, bytes: &[u8]) -> Result<Option<AskedOriginal>, NoMemory>
    ensures { IfOk result (λ original. original ≡ original_at bytes.now) }
{
    match original_at(alloc, bytes)? {
        Some(original) => Ok(Some(to_wish(original))),
        None => Ok(None),
    }
}

/// The original that stands behind `/timegate/`, if a TimeGate can be asked with these values of `Accept-Datetime`.
fn gate_original(
    alloc: Global,
    named: &[u8],
    asked: &[Octets],
) -> Result<Option<AskedOriginal>, NoMemory>
    ensures { IfOk result (λ original. original ≡ gate_original named.now asked.now) }
{
    if is_dated(asked) {
        wished_at(alloc, named)
    } else {
        Ok(None)
    }
}

/// The original that stands behind `/timemap/link/`, if the target begins so.
fn listing_original(alloc: Global, target: &[u8]) -> Result<Option<AskedOriginal>, NoMemory>
    ensures { IfOk result (λ original. original ≡ listing_original target.now) }
{
    match behind(b"/timemap/link/", target) {
        Some(named) => wished_at(alloc, named),
        None => Ok(None),
    }
}

/// The original whose TimeGate or TimeMap a request asks for, if it asks for one, as replies name it. A page of a
/// TimeMap isn't one.
pub fn asked_original(alloc: Global, request: &Request) -> Result<Option<AskedOriginal>, NoMemory>
    ensures { IfOk result (λ original. original ≡ asked_in request.now) }
{
    if is_page(request) {
        return Ok(None);
    }
    if !is_answered(request) {
        return Ok(None);
    }
    let target = request.target.as_slice();
    match behind(b"/timegate/", target) {
        Some(named) => gate_original(alloc, named, request.asked.as_slice()),
        None => listing_original(alloc, target),
    }
}
