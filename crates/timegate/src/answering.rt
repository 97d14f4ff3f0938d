//! The reply to a request.
ghost use Rattle.std.specs.Prelude.{◌≡◌, ◌++◌, ◌∷◌, [], List, Option, IfOk, IfSome, OnOk, codes, option_copied};
ghost use Rattle.std.specs.Prelude.{ℕ, ◌==◌, ◌||◌, nat_lt, true, IfNone};
ghost use Rattle.std.specs.Prelude.{if◌then◌else◌};
ghost use Rattle.memento_sets.specs.Sets as set;
ghost use Rattle.harvest_lattice.specs.Knowledge.{Harvested, lat, shown_of};
ghost use Rattle.timemap_writer.specs.Pages.{pages, IsPage};
ghost use Rattle.replica_exchange.specs.StateText.{state_text};
ghost use Rattle.replica_exchange.specs.CursorRule.{delta_from};
ghost use Rattle.replica_exchange.specs.DeltaText.{delta_text};
ghost use Rattle.replica_exchange.specs.declared.cursor.Cursor.{Cursor};
ghost use Rattle.timegate.specs.Reply.{reply_with, vary, short_reply, bad_method, redirect, timemap, page, reply_at};
ghost use Rattle.timegate.specs.Reply.{reply, reply_of, links_reply, peer_reply};
ghost use Rattle.timegate.specs.Route.{IsOfTaken, is_head, original_in, route_of};
ghost use Rattle.timegate.specs.declared.route.Route.TheVariants.{Delta};
ghost use Rattle.timegate.specs.Served.{IsServed};

use crate::reply::{Header, Reply};
use crate::request::Request;
use crate::route::{Route, is_timegate, route_of};
use memento_index::Index;
use memento_time::{Items, Memento, NoMemory, Octets, Original};
use replica_exchange::{Cursor, Stamped, write_delta, write_state};
use std::alloc::Global;
use timemap_writer::{Service, pages, write_gate_links, write_index, write_page, write_timemap};

/// The reply to a request, by the first of these that fits:
///
/// | Request | Status | Body |
/// |---|---|---|
/// | a method other than `GET` and `HEAD` | 405, with `Allow` | `bad method` |
/// | `/state` | 200 | the state bytes |
/// | `/delta` | 200 | the delta from no cursor |
/// | `/delta/I/N`, both decimals of 64 bits | 200 | the delta from the cursor of incarnation I and number N |
/// | a target that begins neither with `/timegate/` nor with `/timemap/link/` | 404 | `no such route` |
/// | a rest of the target that names no original | 400 | `bad original` |
/// | a TimeGate that is asked for two datetimes, or for one that can't be read | 400 | `bad datetime` |
/// | an original of which no memento is shown | 404 | `no memento` |
/// | a page whose number is 0 or above the last page's | 404 | `no such page` |
/// | a TimeGate | 302, with `Location` and `Link` | none |
/// | a TimeMap of at most 1,000 mementos | 200 | the TimeMap in link-format |
/// | a TimeMap of more | 200 | the index of its pages, in link-format |
/// | a page of a TimeMap | 200 | the page, in link-format |
///
/// A page is asked for at `/timemap/link/page/K/` followed by the original, where K is a decimal of a 64-bit number. A
/// page has 1,000 mementos, and the last one has the rest. If `page/` isn't followed by a decimal and a slash, the
/// original is read from `page/` on.
///
/// A TimeGate names the memento nearest to the moment that is asked for, or the latest one if no moment is. Each reply
/// of a TimeGate has `Vary: accept-datetime`. The short texts end with a line feed. `HEAD` is answered like `GET`,
/// without the body.
///
/// The TimeMap, its pages and the `Link` of a redirect give the addresses of the original's TimeGate and TimeMap, and
/// the index gives those of the pages. A client that requests such an address asks for just what it was told.
pub fn answer(
    alloc: Global,
    service: &Service,
    stamped: &Stamped,
    request: &Request,
) -> Result<Reply, NoMemory>
    ensures state { IfOk result (λ answer. answer ≡ reply_of service.now stamped.now request.now) }
    ensures knowledge { (known : List Harvested) → stamped.now.entries ≡ lat known → IsOfTaken request.now →
        IfOk result (λ answer. answer ≡ reply service.now known request.now) }
    ensures deltas { (cursor : Option Cursor) → route_of request.now ≡ Delta cursor → IfOk result
        (λ answer. answer.body ≡ (if is_head request.now then [] else delta_text (delta_from stamped.now cursor))) }
    // The addresses that are given for the original are served.
    ensures served { OnOk result (IfSome (original_in (route_of request.now)) (IsServed service.now)) }
{
    let route = route_of(alloc, request)?;
    reply_at(alloc, service, stamped, request, &route)
}

/// The reply to what the request asks for.
fn reply_at(
    alloc: Global,
    service: &Service,
    stamped: &Stamped,
    request: &Request,
    route: &Route,
) -> Result<Reply, NoMemory>
    ensures { IfOk result (λ answer. answer
        ≡ reply_at service.now (shown_of stamped.now.entries) stamped.now request.now route.now) }
{
    let index = stamped.index();
    match route {
        Route::BadMethod => bad_method(alloc, request),
        Route::State => state(alloc, index, request),
        Route::Delta(cursor) => delta(alloc, stamped, request, *cursor),
        Route::NoRoute => short_reply(alloc, request, 404, Vec::new(alloc), b"no such route\n"),
        Route::BadOriginal => short_reply(alloc, request, 400, Vec::new(alloc), b"bad original\n"),
        Route::BadDatetime => short_reply(alloc, request, 400, Vec::new(alloc), b"bad datetime\n"),
        Route::TimeGate(original, asked) => {
            let memento = match asked {
                None => index.latest(original),
                Some(moment) => index.nearest(original, *moment),
            };
            redirect(alloc, service, index, request, original, memento)
        }
        Route::TimeMap(original) => timemap(alloc, service, index, request, original),
        Route::Page(number, original) => page(alloc, service, index, request, *number, original),
    }
}

/// The redirect to a memento, if there is one.
fn redirect(
    alloc: Global,
    service: &Service,
    index: &Index,
    request: &Request,
    original: &Original,
    memento: Option<&Memento>,
) -> Result<Reply, NoMemory>
    ensures { IfOk result (λ answer. answer
        ≡ redirect service.now request.now original.now
        (shown_of index.now original.now) (option_copied memento.entry)) }
{
    let Some(memento) = memento else {
        return short_reply(alloc, request, 404, Vec::new(alloc), b"no memento\n");
    };
    let links = write_gate_links(alloc, service, original, index.list(original))?;
    let mut headers = Vec::new(alloc);
    push_vary(alloc, &mut headers, request)?;
    headers.push((
        Header::Location,
        Octets::from_slice(alloc, memento.uri.as_bytes())?,
    ))?;
    headers.push((Header::Link, Octets::of(links)))?;
    Ok(reply_with(request, 302, headers, Vec::new(alloc)))
}

/// The TimeMap or the index of its pages, if any memento is shown.
fn timemap(
    alloc: Global,
    service: &Service,
    index: &Index,
    request: &Request,
    original: &Original,
) -> Result<Reply, NoMemory>
    ensures { IfOk result (λ answer. answer
        ≡ timemap service.now request.now original.now (set.items (shown_of index.now original.now))) }
{
    let mementos = index.list(original);
    if mementos.is_empty() {
        return short_reply(alloc, request, 404, Vec::new(alloc), b"no memento\n");
    }
    let text = if request.is_head() {
        Vec::new(alloc)
    } else if pages(mementos) > 1 {
        write_index(alloc, service, original, mementos)?
    } else {
        write_timemap(alloc, service, original, mementos)?
    };
    links_reply(alloc, request, text)
}

/// A page of the TimeMap, if any memento is shown and there is a page with this number.
fn page(
    alloc: Global,
    service: &Service,
    index: &Index,
    request: &Request,
    number: u64,
    original: &Original,
) -> Result<Reply, NoMemory>
    ensures { IfOk result (λ answer. answer
        ≡ page service.now request.now number original.now (set.items (shown_of index.now original.now))) }
{
    let all = index.list(original);
    if all.is_empty() {
        return short_reply(alloc, request, 404, Vec::new(alloc), b"no memento\n");
    }
    let Some(page) = page_of(all, number) else {
        return short_reply(alloc, request, 404, Vec::new(alloc), b"no such page\n");
    };
    let text = if request.is_head() {
        Vec::new(alloc)
    } else {
        write_page(alloc, service, original, all, page)?
    };
    links_reply(alloc, request, text)
}

/// The page with this number, if the list has one.
fn page_of(mementos: &[Memento], number: u64) -> Option<usize>
    ensures found { IfSome result (λ page. (page ≡ number) × IsPage mementos.now page) }
    ensures none { IfNone result ((number == 0 || nat_lt (pages mementos.now) number) ≡ true) }
{
    if number == 0 || number > pages(mementos) as u64 {
        return None;
    }
    Some(number as usize)
}

/// A text in link-format.
fn links_reply(alloc: Global, request: &Request, text: Vec<u8>) -> Result<Reply, NoMemory>
    ensures { IfOk result (λ answer. answer ≡ links_reply request.now text.items) }
{
    let mut headers = Vec::new(alloc);
    let kind = Octets::from_slice(alloc, b"application/link-format")?;
    headers.push((Header::ContentType, kind))?;
    Ok(reply_with(request, 200, headers, text))
}

/// Replies with the state bytes, which peers fetch.
fn state(alloc: Global, index: &Index, request: &Request) -> Result<Reply, NoMemory>
    ensures { IfOk result (λ answer. answer ≡ peer_reply request.now (state_text index.now)) }
{
    let text = if request.is_head() {
        Vec::new(alloc)
    } else {
        write_state(alloc, index.state())?
    };
    peer_reply(alloc, request, text)
}

/// Replies with what the merges after a cursor changed, which peers fetch.
fn delta(
    alloc: Global,
    stamped: &Stamped,
    request: &Request,
    cursor: Option<Cursor>,
) -> Result<Reply, NoMemory>
    ensures { IfOk result (λ answer. answer
        ≡ peer_reply request.now (delta_text (delta_from stamped.now cursor))) }
{
    let text = if request.is_head() {
        Vec::new(alloc)
    } else {
        write_delta(alloc, stamped, cursor)?
    };
    peer_reply(alloc, request, text)
}

/// A text for peers.
fn peer_reply(alloc: Global, request: &Request, text: Vec<u8>) -> Result<Reply, NoMemory>
    ensures { IfOk result (λ answer. answer ≡ peer_reply request.now text.items) }
{
    let mut headers = Vec::new(alloc);
    headers.push((
        Header::ContentType,
        Octets::from_slice(alloc, b"text/plain")?,
    ))?;
    Ok(reply_with(request, 200, headers, text))
}

fn bad_method(alloc: Global, request: &Request) -> Result<Reply, NoMemory>
    ensures { IfOk result (λ answer. answer ≡ bad_method request.now) }
{
    let mut headers = Vec::new(alloc);
    headers.push((Header::Allow, Octets::from_slice(alloc, b"GET, HEAD")?))?;
    short_reply(alloc, request, 405, headers, b"bad method\n")
}

/// Replies with a short text, after these headers.
fn short_reply(
    alloc: Global,
    request: &Request,
    status: u16,
    headers: Vec<(Header, Octets)>,
    text: &[u8],
) -> Result<Reply, NoMemory>
    ensures { IfOk result (λ answer. answer ≡ short_reply request.now status headers.items text.now) }
{
    let mut headers = headers;
    push_vary(alloc, &mut headers, request)?;
    headers.push((
        Header::ContentType,
        Octets::from_slice(alloc, b"text/plain")?,
    ))?;
    let body = Vec::from_slice(alloc, text)?;
    Ok(reply_with(request, status, headers, body))
}

/// Adds `Vary` to a TimeGate's reply, which depends on the moment that is asked for.
fn push_vary(
    alloc: Global,
    headers: &mut Vec<(Header, Octets)>,
    request: &Request,
) -> Result<(), NoMemory>
    ensures { OnOk result (headers.new.items ≡ headers.old.items ++ vary request.now) }
{
    if is_timegate(request) {
        headers.push((Header::Vary, Octets::from_slice(alloc, b"accept-datetime")?))?;
    }
    Ok(())
}

/// The reply with this body, which `HEAD` gets without the body.
fn reply_with(
    request: &Request,
    status: u16,
    headers: Vec<(Header, Octets)>,
    body: Vec<u8>,
) -> Reply
    ensures { result ≡ reply_with request.now status headers.items body.items }
{
    let mut body = body;
    if request.is_head() {
        body.clear();
    }
    Reply {
        status,
        headers: Items::of(headers),
        body: Octets::of(body),
    }
}
