//! The values at the keys of settings: numbers, and lists of texts.
ghost use Rattle.std.specs.Prelude.{◌≡◌, All, IfErr, IfOk, IfSome, length, true};
ghost use Rattle.service_settings.specs.Limits.{IsWithin};
ghost use Rattle.service_settings.specs.Peers as spec;

use crate::fault::{Key, SettingsFault};
use memento_time::{Clean, CleanFault, Original};
use std::alloc::{AllocError, Global};
use std::net::SocketAddr;
use std::str::FromStr;
use timemap_reader::{OriginalFault, read_original};
use timemap_writer::{Service, ServiceFault};
use toml::{Table, Value};

/// The number at a key, if it is within the limits of that key.
pub(crate) fn number_at(table: &Table, key: Key) -> Result<u64, SettingsFault>
    ensures { IfOk result (IsWithin key) }
{
    let (least, most) = key.limits();
    let number = table.get(key.name()).and_then(Value::as_integer);
    let number = number.and_then(|number| u64::try_from(number).ok());
    match number {
        Some(number) if least <= number && number <= most => Ok(number),
        _ => Err(SettingsFault::Key(key)),
    }
}

/// The number at a key as `number_at` gives it, or `missing` if there is no such key.
pub(crate) fn number_or(table: &Table, key: Key, missing: u64) -> Result<u64, SettingsFault>
    requires { IsWithin key missing }
    ensures { IfOk result (IsWithin key) }
{
    if table.get(key.name()).is_none() {
        return Ok(missing);
    }
    number_at(table, key)
}

/// The number at a key as `number_at` gives it, or `None` if there is no such key.
pub(crate) fn number_if(table: &Table, key: Key) -> Result<Option<u64>, SettingsFault>
    ensures { IfOk result (λ found. IfSome found (IsWithin key)) }
{
    if table.get(key.name()).is_none() {
        return Ok(None);
    }
    let number = number_at(table, key)?;
    Ok(Some(number))
}

/// Whether a key holds `true`. A key that is missing doesn't.
pub(crate) fn wants(table: &Table, key: Key) -> Result<bool, SettingsFault>
    ensures { IfErr result (λ fault. fault ≡ SettingsFault.Key key) }
{
    let Some(value) = table.get(key.name()) else {
        return Ok(false);
    };
    value.as_bool().ok_or(SettingsFault::Key(key))
}

/// The list at a key, if the number of its elements is within the limits of that key.
pub(crate) fn list_at<'a>(table: &'a Table, key: Key) -> Result<&'a [Value], SettingsFault>
    ensures { IfOk result (λ list. IsWithin key (length list.now)) }
{
    let (least, most) = key.limits();
    let Some(list) = table.get(key.name()).and_then(Value::as_array) else {
        return Err(SettingsFault::Key(key));
    };
    let count = list.len() as u64;
    if count < least || most < count {
        return Err(SettingsFault::Key(key));
    }
    Ok(list.as_slice())
}

/// The service whose base is in the settings.
pub(crate) fn service_at(alloc: Global, table: &Table) -> Result<Service, SettingsFault> {
    let Some(text) = table.get(Key::Base.name()).and_then(Value::as_str) else {
        return Err(SettingsFault::Key(Key::Base));
    };
    service_of(alloc, text, Key::Base)
}

pub(crate) fn service_of(alloc: Global, text: &str, key: Key) -> Result<Service, SettingsFault> {
    match Service::new(alloc, text) {
        Ok(service) => Ok(service),
        Err(ServiceFault::BadBase) => Err(SettingsFault::Key(key)),
        Err(ServiceFault::NoMemory) => Err(SettingsFault::NoMemory),
    }
}

/// The addresses of the gates.
pub(crate) fn gates_at(alloc: Global, table: &Table) -> Result<Vec<String>, SettingsFault>
    ensures { IfOk result (λ gates. IsWithin Key.Gates (length gates.items)) }
{
    let list = list_at(table, Key::Gates)?;
    let mut gates = Vec::new(alloc);
    for value in list {
        gates
            .push(address_of(alloc, value, Key::Gates)?)
            .map_err(AllocError::from)?;
    }
    Ok(gates)
}

/// The socket address in a value, or a fault of the key.
pub(crate) fn address_of(alloc: Global, value: &Value, key: Key) -> Result<String, SettingsFault> {
    match value.as_str() {
        Some(text) if SocketAddr::from_str(text).is_ok() => Ok(String::from_str(alloc, text)?),
        _ => Err(SettingsFault::Key(key)),
    }
}

/// The text at a key, if there is such a key. It has as many bytes as the limits of that key allow.
pub(crate) fn text_if(
    alloc: Global,
    table: &Table,
    key: Key,
) -> Result<Option<String>, SettingsFault>
    ensures { IfOk result (λ found. IfSome found (λ text. IsWithin key (length text.bytes.items))) }
{
    let Some(value) = table.get(key.name()) else {
        return Ok(None);
    };
    let Some(text) = value.as_str() else {
        return Err(SettingsFault::Key(key));
    };
    let (least, most) = key.limits();
    let count = text.len() as u64;
    if count < least || most < count {
        return Err(SettingsFault::Key(key));
    }
    Ok(Some(String::from_str(alloc, text)?))
}

/// The originals.
pub(crate) fn originals_at(alloc: Global, table: &Table) -> Result<Vec<Original>, SettingsFault>
    ensures { IfOk result (λ originals. IsWithin Key.Originals (length originals.items)) }
{
    let list = list_at(table, Key::Originals)?;
    let mut originals = Vec::new(alloc);
    for value in list {
        originals
            .push(original_of(alloc, value)?)
            .map_err(AllocError::from)?;
    }
    Ok(originals)
}

fn original_of(alloc: Global, value: &Value) -> Result<Original, SettingsFault> {
    let fault = SettingsFault::Key(Key::Originals);
    let Some(text) = value.as_str() else {
        return Err(fault);
    };
    match read_original(alloc, text) {
        Ok(original) => Ok(original),
        Err(OriginalFault::NoMemory) => Err(SettingsFault::NoMemory),
        Err(_) => Err(fault),
    }
}

/// The bases of the peers, without the last `/`. Each is one that the program can connect to.
pub(crate) fn peers_at(alloc: Global, table: &Table) -> Result<Vec<Clean>, SettingsFault>
    ensures few { IfOk result (λ peers. IsWithin Key.Peers (length peers.items)) }
    ensures reached { IfOk result (λ peers. All (λ peer. spec.is_reached peer ≡ true) peers.items) }
{
    let list = list_at(table, Key::Peers)?;
    let mut peers = Vec::new(alloc);
    for value in list {
        peers
            .push(peer_of(alloc, value)?)
            .map_err(AllocError::from)?;
    }
    Ok(peers)
}

/// Whether the program can connect to a base: it speaks http alone, and asks nobody by an address in brackets.
fn is_reached(base: &[u8]) -> bool
    ensures { result ≡ spec.is_reached base.now }
{
    base.starts_with(b"http://") && !base.starts_with(b"http://[")
}

fn peer_of(alloc: Global, value: &Value) -> Result<Clean, SettingsFault>
    ensures { IfOk result (λ peer. spec.is_reached peer ≡ true) }
{
    let Some(text) = value.as_str() else {
        return Err(SettingsFault::Key(Key::Peers));
    };
    let service = service_of(alloc, text, Key::Peers)?;
    let peer = clean_of(alloc, service.base(), Key::Peers)?;
    if !is_reached(peer.as_bytes()) {
        return Err(SettingsFault::Key(Key::Peers));
    }
    Ok(peer)
}

/// A clean text, or a fault of the key.
pub(crate) fn clean_of(alloc: Global, text: &[u8], key: Key) -> Result<Clean, SettingsFault> {
    match Clean::new(alloc, text) {
        Ok(clean) => Ok(clean),
        Err(CleanFault::NotClean) => Err(SettingsFault::Key(key)),
        Err(CleanFault::NoMemory) => Err(SettingsFault::NoMemory),
    }
}
