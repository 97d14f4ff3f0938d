//! Which hosts archives' pages are fetched from.
ghost use Rattle.std.specs.Prelude.{◌≡◌, ◌==◌, ◌↔◌, IfOk, IsTrue, MatchOption, None, filter, string_bytes};
ghost use Rattle.std.specs.List.{list_all};
ghost use Rattle.std.specs.Net.Socket.{socket_ip};
ghost use Rattle.url.specs.Host.{borrowed_host};
ghost use Rattle.url.specs.Parser.{parse_url};
ghost use Rattle.url.specs.Parts.{text_between};
ghost use Rattle.url_texts.specs.Reading.{IsReading};
ghost use Rattle.outgoing_requests.specs.Addresses as spec;
ghost use Rattle.outgoing_requests.specs.Hosts.{IsEntryOf, IsListed, Spells, url_around};
ghost use Rattle.outgoing_requests.specs.declared.hosts.AllowedHost.{AllowedHost as Entry};

use memento_time::Octets;
use std::alloc::{AllocError, Global};
use std::net::{IpAddr, Ipv4Addr, Ipv6Addr, SocketAddr};
use url::{Host, Position, Url};
use url_texts::read_url;

/// A host, as the crate `url` writes it, and a port.
#[derive(Debug, Drop)]
pub struct AllowedHost {
    host: Octets,
    port: u16,
}

impl AllowedHost {
    fn is(&self, host: &str, port: u16) -> bool
        ensures { IsTrue result ↔ ((self.now.host ≡ host.now) × (self.now.port ≡ port)) }
    {
        self.host.as_slice() == host.as_bytes() && self.port == port
    }
}

/// The URL with this text between the scheme and the path, or `None` if that isn't a URL.
fn read_around(alloc: Global, text: &str) -> Result<Option<Url>, AllocError>
    ensures { IfOk result (λ url. IsReading (parse_url None (url_around text.now)) url) }
{
    let around = around(alloc, text)?;
    read_url(alloc, around.as_str())
}

fn around(alloc: Global, text: &str) -> Result<String, AllocError>
    ensures { IfOk result (λ around. string_bytes around ≡ url_around text.now) }
{
    format!(in alloc; "http://{text}/")
}

/// Whether a URL's host and port are written like this text.
fn has_host_written(url: &Url, text: &str) -> bool
    ensures { IsTrue result ↔ (text_between url.now Position.BeforeHost Position.AfterPort ≡ text.now) }
{
    url.slice(Position::BeforeHost, Position::AfterPort) == text
}

/// The host and the port of a URL, if it has them.
fn entry_of(alloc: Global, url: &Url) -> Result<Option<AllowedHost>, AllocError>
    ensures { IfOk result (λ found.
        MatchOption found ((entry : Entry) → ¬ (IsEntryOf url.now entry)) (IsEntryOf url.now)) }
{
    let (Some(host), Some(port)) = (url.host_str(), url.port_or_known_default()) else {
        return Ok(None);
    };
    let host = Octets::of(host.as_bytes().to_vec(alloc)?);
    Ok(Some(AllowedHost { host, port }))
}

/// Reads the entry that a text spells: the part of a URL between `http://` and the path, such as `web.archive.org`,
/// whose port is 80, or `127.0.0.1:8101`. `None` if the text isn't exactly that, or isn't spelled as `url` spells it.
pub fn read_host(alloc: Global, text: &str) -> Result<Option<AllowedHost>, AllocError>
    ensures { IfOk result (λ found. MatchOption found ((entry : Entry) → ¬ (Spells text.now entry)) (Spells text.now)) }
{
    let Some(url) = read_around(alloc, text)? else {
        return Ok(None);
    };
    if !has_host_written(&url, text) {
        return Ok(None);
    }
    entry_of(alloc, &url)
}

/// Whether one of these entries has the host and the port of the URL.
pub fn is_listed(hosts: &[AllowedHost], url: &Url) -> bool
    ensures { IsTrue result ↔ IsListed hosts.now url.now }
{
    let (Some(host), Some(port)) = (url.host_str(), url.port_or_known_default()) else {
        return false;
    };
    hosts.iter().any(|entry| entry.is(host, port))
}

/// Whether an IPv4 address with these first three octets is internal.
fn is_internal_v4(first: u8, second: u8, third: u8) -> bool
    ensures { result ≡ spec.is_internal_v4 first second third }
{
    first == 0
        || first == 10
        || first == 127
        || first >= 224
        || (first == 100 && second >= 64 && second <= 127)
        || (first == 169 && second == 254)
        || (first == 172 && second >= 16 && second <= 31)
        || (first == 192 && (second == 168 || (second == 0 && third == 0)))
        || (first == 198 && (second == 18 || second == 19))
}

fn are_zeros(segments: &[u16]) -> bool
    ensures { result ≡ list_all (λ segment. segment == 0) segments.now }
{
    segments.iter().all(|segment| *segment == 0)
}

/// Whether the address stands for an IPv4 address.
fn holds_v4(segments: [u16; 8]) -> bool
    ensures { result ≡ spec.holds_v4 segments }
{
    let mark = segments[5];
    are_zeros(&segments[..5]) && (mark == 0 || mark == 0xffff)
}

fn is_internal_v6(segments: [u16; 8]) -> bool
    ensures { result ≡ spec.is_internal_v6 segments }
{
    segments[0] >= 0xfc00
        || (holds_v4(segments)
            && is_internal_v4(
                (segments[6] / 256) as u8,
                (segments[6] % 256) as u8,
                (segments[7] / 256) as u8,
            ))
}

/// Whether an address belongs to this machine, to a private network, or to no single machine.
fn is_internal(address: IpAddr) -> bool
    ensures { result ≡ spec.is_internal address }
{
    match address {
        IpAddr::V4(address) => {
            let [first, second, third, _] = address.octets();
            is_internal_v4(first, second, third)
        }
        IpAddr::V6(address) => is_internal_v6(address.segments()),
    }
}

/// Whether a listed host leads to an address that looking it up gave. A name leads to no internal address, so that
/// nobody's name can make this machine ask itself or its network. A host that is an address leads only to that address.
pub fn is_allowed(host: &Host<&str>, address: IpAddr) -> bool
    ensures { result ≡ spec.is_allowed (borrowed_host host.now) address }
{
    match (*host, address) {
        (Host::Domain(_), address) => !is_internal(address),
        (Host::Ipv4(own), IpAddr::V4(address)) => own.octets() == address.octets(),
        (Host::Ipv6(own), IpAddr::V6(address)) => own.segments() == address.segments(),
        _ => false,
    }
}

/// The addresses, out of these, that a listed host leads to, in their order.
pub fn allowed_addresses(
    alloc: Global,
    host: &Host<&str>,
    addresses: &[SocketAddr],
) -> Result<Vec<SocketAddr>, AllocError>
    ensures { IfOk result (λ left. left.items
        ≡ filter (λ a. spec.is_allowed (borrowed_host host.now) (socket_ip a)) addresses.now) }
{
    addresses
        .iter()
        .filter(|address| is_allowed(host, address.ip()))
        .copied()
        .collect(alloc)
}
