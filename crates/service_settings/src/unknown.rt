//! Which keys of settings aren't looked at.
ghost use Rattle.std.specs.Prelude.{◌≡◌, ◌++◌, ◌∷◌, [], List, ℕ, IfOk, OnOk, codes, map, option_map, string_bytes};
ghost use Rattle.toml.specs.Data.{as_table, get_member};
ghost use Rattle.toml.specs.Parse.{parse_document};
ghost use Rattle.toml.specs.View.{items_view, table_view, view};
ghost use Rattle.service_settings.specs.Unknown.{all_lines, archive_lines, archives_lines, is_archive_name, is_known, lead_of};
ghost use Rattle.service_settings.specs.Unknown.{line_of, table_lines, told_lines, told_of, value_lines};
ghost use Rattle.service_settings.specs.Told.{IsTold};

use crate::entries::tells_more;
use crate::fault::Key;
use crate::printing::shown;
use std::alloc::{AllocError, Global};
use toml::{Table, Value};

/// The most unknown keys that are named.
const MOST_NAMED: usize = 20;

/// The most bytes of a key that are shown.
const MOST_SHOWN: usize = 64;

/// Where a key of settings stands.
#[derive(Clone, Copy, Debug, PartialEq, Eq)]
enum Place {
    /// In no table.
    Top,
    /// In the table of an archive.
    Archive,
}

impl Place {
    /// Whether a key is looked at here.
    fn knows(self, key: &str) -> bool
        ensures { result ≡ is_known self key.now }
    {
        match self {
            Place::Top => Key::named(key).is_some(),
            Place::Archive => is_archive_key(key),
        }
    }

    /// What the line about a key begins with.
    fn lead(self) -> &'static str
        ensures { result.now ≡ lead_of self }
    {
        match self {
            Place::Top => "unknown key: ",
            Place::Archive => "archives: unknown key: ",
        }
    }
}

/// Whether an archive's table may have this key.
fn is_archive_key(key: &str) -> bool
    ensures { result ≡ is_archive_name key.now }
{
    key == "name" || key == "timemap" || key == "at_once" || key == "every"
}

/// What is told of keys that aren't looked at.
#[derive(Drop)]
struct Told {
    /// The lines about the first of them.
    lines: Vec<String>,
    /// How many there are.
    count: usize,
}

impl Told {
    /// Takes in one more key, and a line about it if it is among the first.
    fn add(&mut self, alloc: Global, place: Place, key: &str) -> Result<(), AllocError>
        ensures { OnOk result ((all : List (List ℕ)) → IsTold self.old all → IsTold self.new (all ++ line_of place key.now ∷ [])) }
    {
        if self.lines.len() < MOST_NAMED {
            let line = line_about(alloc, place, key)?;
            self.lines.push(line)?;
        }
        self.count = self.count.checked_add(1).ok_or(AllocError)?;
        Ok(())
    }

    /// Takes in the keys of a table that aren't looked at.
    fn add_table(&mut self, alloc: Global, place: Place, table: &Table) -> Result<(), AllocError>
        ensures { OnOk result ((all : List (List ℕ)) → IsTold self.old all
            → IsTold self.new (all ++ table_lines place (table_view table.now))) }
    {
        for (key, _value) in table.iter() {
            if !place.knows(key.as_str()) {
                self.add(alloc, place, key.as_str())?;
            }
        }
        Ok(())
    }

    /// Takes in the keys of an archive that aren't looked at, if it is a table.
    fn add_archive(&mut self, alloc: Global, archive: &Value) -> Result<(), AllocError>
        ensures { OnOk result ((all : List (List ℕ)) → IsTold self.old all
            → IsTold self.new (all ++ archive_lines (as_table (view archive.now)))) }
    {
        let Some(table) = archive.as_table() else {
            return Ok(());
        };
        self.add_table(alloc, Place::Archive, table)
    }

    /// Takes in the keys of archives that aren't looked at.
    fn add_archives(&mut self, alloc: Global, archives: &[Value]) -> Result<(), AllocError>
        ensures { OnOk result ((all : List (List ℕ)) → IsTold self.old all
            → IsTold self.new (all ++ archives_lines (items_view archives.now))) }
    {
        for archive in archives {
            self.add_archive(alloc, archive)?;
        }
        Ok(())
    }

    /// Takes in the keys of the archives of settings that aren't looked at, if there is a list of archives.
    fn add_listed(&mut self, alloc: Global, settings: &Table) -> Result<(), AllocError>
        ensures { OnOk result ((all : List (List ℕ)) → IsTold self.old all
            → IsTold self.new (all ++ value_lines (get_member (codes "archives") (table_view settings.now)))) }
    {
        let Some(value) = settings.get(Key::Archives.name()) else {
            return Ok(());
        };
        let Some(archives) = value.as_array() else {
            return Ok(());
        };
        self.add_archives(alloc, archives.as_slice())
    }

    /// The lines, with a last one if there are more keys.
    fn lines(self, alloc: Global) -> Result<Vec<String>, AllocError>
        ensures { IfOk result (λ lines. (all : List (List ℕ)) → IsTold self all
            → map (λ line. string_bytes line) lines.items ≡ told_lines all) }
    {
        let more = self.count.saturating_sub(self.lines.len());
        if more == 0 {
            return Ok(self.lines);
        }
        let mut lines = self.lines;
        let last = format!(in alloc; "unknown keys: {more} more")?;
        lines.push(last)?;
        Ok(lines)
    }
}

fn line_about(alloc: Global, place: Place, key: &str) -> Result<String, AllocError>
    ensures { IfOk result (λ line. string_bytes line ≡ line_of place key.now) }
{
    let lead = place.lead();
    let shown = shown(alloc, key, MOST_SHOWN)?;
    format!(in alloc; "{lead}{shown}")
}

/// The lines about the keys of settings that aren't looked at.
fn lines_about(alloc: Global, table: &Table) -> Result<Vec<String>, AllocError>
    ensures { IfOk result (λ lines. map (λ line. string_bytes line) lines.items ≡ told_lines (all_lines (table_view table.now))) }
{
    let mut told = Told {
        lines: Vec::new(alloc),
        count: 0,
    };
    told.add_table(alloc, Place::Top, table)?;
    told.add_listed(alloc, table)?;
    told.lines(alloc)
}

/// Lines about the keys of settings that aren't looked at: one for each of the first 20, and then how many more there
/// are. `None` if the text isn't TOML, or has no key by which more is told than what is specified.
pub fn unknown_keys(alloc: Global, text: &str) -> Result<Option<Vec<String>>, AllocError>
    ensures { IfOk result (λ told. option_map (λ lines. map (λ line. string_bytes line) lines.items) told
        ≡ told_of (parse_document text.now)) }
{
    let table = match toml::table_from_str(alloc, text) {
        Ok(table) => table,
        Err(error) if error.is_memory() => return Err(AllocError),
        Err(_) => return Ok(None),
    };
    if !tells_more(&table) {
        return Ok(None);
    }
    let lines = lines_about(alloc, &table)?;
    Ok(Some(lines))
}
