//! Which entry of `originals` keeps settings from being read.
ghost use Rattle.std.specs.Prelude.{◌≡◌, IfSome, is_some};
ghost use Rattle.toml.specs.Data.{get_member};
ghost use Rattle.toml.specs.View.{table_view};
ghost use Rattle.service_settings.specs.Entries.{IsBadOriginal};
ghost use Rattle.service_settings.specs.Keys.{name_of};
ghost use Rattle.service_settings.specs.Unknown as spec;

use crate::fault::Key;
use original_list::bad_entry;
use std::alloc::Global;
use toml::Table;

/// Whether settings have one of the keys of this service's own by which more is told than what is specified.
pub(crate) fn tells_more(table: &Table) -> bool
    ensures { result ≡ spec.tells_more (table_view table.now) }
{
    has(table, Key::Tolerance)
        || has(table, Key::Again)
        || has(table, Key::Publish)
        || has(table, Key::Pull)
        || has(table, Key::OriginalsFile)
}

fn has(table: &Table, key: Key) -> bool
    ensures { result ≡ is_some (get_member (name_of key) (table_view table.now)) }
{
    table.get(key.name()).is_some()
}

/// The number of the first entry of `originals` that is no original, from 1 on, where the settings have a key by which
/// more is told than what is specified. `None` also where memory is refused.
pub fn bad_original(alloc: Global, text: &str) -> Option<usize>
    ensures { IfSome result (IsBadOriginal text.now) }
{
    let Ok(table) = toml::table_from_str(alloc, text) else {
        return None;
    };
    if !tells_more(&table) {
        return None;
    }
    match bad_entry(alloc, &table, Key::Originals.name()) {
        Ok(number) => number,
        Err(_) => None,
    }
}
