//! Entries of settings that are to be originals.
ghost use Rattle.std.specs.Prelude.{◌≡◌, IfOk};
ghost use Rattle.toml.specs.Data.{get_member};
ghost use Rattle.toml.specs.View.{items_view, table_view, view};
ghost use Rattle.original_list.specs.Entries as spec;

use memento_time::NoMemory;
use std::alloc::Global;
use timemap_reader::{OriginalFault, read_original};
use toml::{Table, Value};

/// Whether an entry isn't a text that names an original.
fn is_bad(alloc: Global, entry: &Value) -> Result<bool, NoMemory>
    ensures { IfOk result (λ is. is ≡ spec.is_bad (view entry.now)) }
{
    let Some(text) = entry.as_str() else {
        return Ok(true);
    };
    match read_original(alloc, text) {
        Ok(_) => Ok(false),
        Err(OriginalFault::NoMemory) => Err(NoMemory),
        Err(_) => Ok(true),
    }
}

/// The number of the first entry that isn't a text that names an original, from 1 on.
fn first_bad(alloc: Global, entries: &[Value]) -> Result<Option<usize>, NoMemory>
    ensures { IfOk result (λ number. number ≡ spec.first_bad 1 (items_view entries.now)) }
{
    for (place, entry) in entries.iter().enumerate() {
        if is_bad(alloc, entry)? {
            return Ok(Some(place + 1));
        }
    }
    Ok(None)
}

/// The number of the first entry of the list at a key that isn't a text that names an original, from 1 on; `None` also
/// where there is no list.
pub fn bad_entry(alloc: Global, table: &Table, key: &str) -> Result<Option<usize>, NoMemory>
    ensures { IfOk result (λ number. number ≡ spec.bad_entry (get_member key.now (table_view table.now))) }
{
    let Some(value) = table.get(key) else {
        return Ok(None);
    };
    let Some(list) = value.as_array() else {
        return Ok(None);
    };
    first_bad(alloc, list.as_slice())
}
