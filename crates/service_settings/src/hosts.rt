//! The hosts of settings.
ghost use Rattle.std.specs.Prelude.{IfOk, IfSome, length};
ghost use Rattle.service_settings.specs.Limits.{IsWithin};

use crate::fault::{Key, SettingsFault};
use crate::values::list_at;
use outgoing_requests::{AllowedHost, read_host};
use std::alloc::{AllocError, Global};
use toml::{Table, Value};

/// The hosts that archives' pages are fetched from, or `None` if there is no such key.
pub(crate) fn hosts_at(
    alloc: Global,
    table: &Table,
) -> Result<Option<Vec<AllowedHost>>, SettingsFault>
    ensures { IfOk result (λ hosts. IfSome hosts (λ listed. IsWithin Key.Hosts (length listed.items))) }
{
    if table.get(Key::Hosts.name()).is_none() {
        return Ok(None);
    }
    let list = list_at(table, Key::Hosts)?;
    let mut hosts = Vec::new(alloc);
    for value in list {
        hosts
            .push(host_of(alloc, value)?)
            .map_err(AllocError::from)?;
    }
    Ok(Some(hosts))
}

fn host_of(alloc: Global, value: &Value) -> Result<AllowedHost, SettingsFault> {
    let Some(text) = value.as_str() else {
        return Err(SettingsFault::Key(Key::Hosts));
    };
    let Some(host) = read_host(alloc, text)? else {
        return Err(SettingsFault::Key(Key::Hosts));
    };
    Ok(host)
}
