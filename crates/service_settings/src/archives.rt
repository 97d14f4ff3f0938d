//! The archives of settings.
ghost use Rattle.std.specs.Prelude.{All, IfOk, IfSome, length, ◌≤◌};
ghost use Rattle.std.proofs.Props.{props};
ghost use Rattle.service_settings.specs.Limits.{IsWithin, most_every};
ghost use Rattle.service_settings.specs.declared.fault.Key.TheVariants.{AtOnce};

use crate::fault::{Key, SettingsFault};
use crate::values::{clean_of, list_at, number_if};
use memento_time::{ArchiveName, Clean};
use std::alloc::{AllocError, Global};
use std::collections::BTreeSet;
use toml::{Table, Value};

/// The most bytes that the text before an original can have.
const MAX_TIMEMAP: usize = 4_096;

/// The most milliseconds between two requests of one archive.
const MAX_EVERY: u64 = 3_600_000;

const BAD_ARCHIVE: SettingsFault = SettingsFault::Key(Key::Archives);

/// An archive of the settings.
#[derive(Drop)]
pub struct Archive {
    pub name: ArchiveName,
    /// The text that comes before an original in the address of its TimeMap.
    pub timemap: Clean,
    /// How many walks of it run at once; `None` if as many as of any archive.
    pub at_once: Option<u64>,
    /// How many milliseconds pass at least between two requests; `None` if there is no such limit.
    pub every: Option<u64>,

    ghost few_at_once: { IfSome at_once (IsWithin AtOnce) } by { Prim.hlevel props },
    ghost short_every: { IfSome every (λ milliseconds. milliseconds ≤ most_every) } by { Prim.hlevel props },
}

/// The archives, of which no two have one name, and none has more walks at once than the most.
pub(crate) fn archives_at(
    alloc: Global,
    table: &Table,
    most_at_once: u64,
) -> Result<Vec<Archive>, SettingsFault>
    ensures few { IfOk result (λ archives. IsWithin Key.Archives (length archives.items)) }
    ensures at_once { IfOk result (λ archives. All (λ archive. IfSome archive.at_once (λ own. own ≤ most_at_once))
        archives.items) }
{
    let list = list_at(table, Key::Archives)?;
    let mut names = BTreeSet::new(alloc);
    let mut archives = Vec::new(alloc);
    for value in list {
        let archive = archive_of(alloc, value, most_at_once)?;
        if !names.insert(archive.name).map_err(AllocError::from)? {
            return Err(BAD_ARCHIVE);
        }
        archives.push(archive).map_err(AllocError::from)?;
    }
    Ok(archives)
}

fn archive_of(alloc: Global, value: &Value, most_at_once: u64) -> Result<Archive, SettingsFault>
    ensures { IfOk result (λ archive. IfSome archive.at_once (λ own. own ≤ most_at_once)) }
{
    let Some(table) = value.as_table() else {
        return Err(BAD_ARCHIVE);
    };
    let (Some(name), Some(timemap)) = (text_at(table, "name"), text_at(table, "timemap")) else {
        return Err(BAD_ARCHIVE);
    };
    let Some(name) = ArchiveName::new(name.as_bytes()) else {
        return Err(BAD_ARCHIVE);
    };
    if timemap.len() > MAX_TIMEMAP || !timemap.starts_with("http://") {
        return Err(BAD_ARCHIVE);
    }
    let timemap = clean_of(alloc, timemap.as_bytes(), Key::Archives)?;
    let at_once = at_once_at(table, most_at_once)?;
    let every = every_at(table)?;
    Ok(Archive {
        name,
        timemap,
        at_once,
        every,
    })
}

/// How many walks run at once, if the archive has that key.
fn at_once_at(table: &Table, most: u64) -> Result<Option<u64>, SettingsFault>
    ensures within { IfOk result (λ at_once. IfSome at_once (IsWithin Key.AtOnce)) }
    ensures few { IfOk result (λ at_once. IfSome at_once (λ own. own ≤ most)) }
{
    match number_if(table, Key::AtOnce) {
        Ok(Some(own)) if own <= most => Ok(Some(own)),
        Ok(None) => Ok(None),
        Ok(Some(_)) | Err(_) => Err(BAD_ARCHIVE),
    }
}

/// The milliseconds between two requests, if the archive has that key.
fn every_at(table: &Table) -> Result<Option<u64>, SettingsFault>
    ensures { IfOk result (λ every. IfSome every (λ milliseconds. milliseconds ≤ most_every)) }
{
    let Some(value) = table.get("every") else {
        return Ok(None);
    };
    let number = value.as_integer();
    let number = number.and_then(|number| u64::try_from(number).ok());
    match number {
        Some(number) if 1 <= number && number <= MAX_EVERY => Ok(Some(number)),
        _ => Err(BAD_ARCHIVE),
    }
}

fn text_at<'a>(table: &'a Table, name: &str) -> Option<&'a str> {
    table.get(name).and_then(Value::as_str)
}
