//! In which forms gates answer, and where the status is shown.
use crate::fault::{Key, SettingsFault};
use crate::values::{address_of, list_at};
use std::alloc::Global;
use timemap_formats::Forms;
use toml::Table;

/// In which forms beside link-format gates answer: those that the key `formats` lists.
pub(crate) fn forms_at(table: &Table) -> Result<Forms, SettingsFault> {
    let mut forms = Forms {
        json: false,
        cdxj: false,
    };
    if table.get(Key::Formats.name()).is_none() {
        return Ok(forms);
    }
    for value in list_at(table, Key::Formats)? {
        match value.as_str() {
            Some("json") => forms.json = true,
            Some("cdxj") => forms.cdxj = true,
            _ => return Err(SettingsFault::Key(Key::Formats)),
        }
    }
    Ok(forms)
}

/// The address at which the status is shown, if there is such a key.
pub(crate) fn status_at(alloc: Global, table: &Table) -> Result<Option<String>, SettingsFault> {
    let Some(value) = table.get(Key::Status.name()) else {
        return Ok(None);
    };
    let address = address_of(alloc, value, Key::Status)?;
    Ok(Some(address))
}
