//! Writing a state or a delta as its text.
ghost use Rattle.std.specs.Prelude.{◌≡◌, ◌^◌, ◌<◌, ◌++◌, ◌∷◌, [], length, All, IfOk, IfSome, OnOk};
ghost use Rattle.std.specs.List.{flat_map, filter};
ghost use Rattle.std.specs.Fmt.{decimal};
ghost use Rattle.std.specs.FinMap as map;
ghost use Rattle.memento_time.specs.Mementos.{IsMemento};
ghost use Rattle.replica_exchange.specs.StateText.{memento_line, whole_field, entry_line, part_line, part_text};
ghost use Rattle.replica_exchange.specs.StateText.{entry_text, state_text};
ghost use Rattle.replica_exchange.specs.StateText.{counted_text, IsEntryLine, IsPartLine, IsPart, IsEntry, AreEntries};
ghost use Rattle.replica_exchange.specs.StateText.{IsState};
ghost use Rattle.harvest_lattice.specs.Lattice.{whole};
ghost use Rattle.replica_exchange.specs.Stamps.{entries_above, above};
ghost use Rattle.replica_exchange.specs.CursorRule.{delta_from, start_from};
ghost use Rattle.replica_exchange.specs.DeltaText.{delta_text, from_line, IsDelta};

use crate::cursor::Cursor;
use crate::stamped::Stamped;
use harvest_lattice::{Entry, State};
use memento_time::{ArchiveName, Memento, NoMemory, Original};
use std::alloc::{AllocError, Global};
use text_fields::write_decimal;

/// Writes a field and the byte that ends it.
fn write_field(out: &mut Vec<u8>, field: &[u8], end: u8) -> Result<(), AllocError>
    ensures { OnOk result (out.new.items ≡ out.old.items ++ (field.now ++ end ∷ [])) }
{
    out.extend_from_slice(field)?;
    out.push(end)?;
    Ok(())
}

/// A number and the byte that ends it.
fn write_number(out: &mut Vec<u8>, number: u64, end: u8) -> Result<(), AllocError>
    ensures written { OnOk result (out.new.items ≡ out.old.items ++ (decimal number ++ end ∷ [])) }
    ensures fits { number < 2 ^ 64 }
{
    write_decimal(out, number)?;
    out.push(end)?;
    Ok(())
}

fn write_memento(out: &mut Vec<u8>, memento: &Memento) -> Result<(), AllocError>
    ensures written { OnOk result (out.new.items ≡ out.old.items ++ memento_line memento.now) }
    ensures fits { OnOk result (IsMemento memento.now) }
{
    write_number(out, memento.at.secs(), b' ')?;
    write_field(out, memento.uri.as_bytes(), b'\n')
}

/// Writes the whole revision, if there is one, and a space.
fn write_whole(out: &mut Vec<u8>, whole: Option<u64>) -> Result<(), AllocError>
    ensures written { OnOk result (out.new.items ≡ out.old.items ++ (whole_field whole ++ 32 ∷ [])) }
    ensures fits { IfSome whole (λ revision. revision < 2 ^ 64) }
{
    match whole {
        Some(revision) => write_number(out, revision, b' '),
        None => out.extend_from_slice(b"- "),
    }
}

fn write_entry_line(
    out: &mut Vec<u8>,
    archive: ArchiveName,
    original: &Original,
    entry: &Entry,
) -> Result<(), AllocError>
    ensures written { OnOk result (out.new.items ≡ out.old.items
        ++ entry_line (archive, original.now) (whole entry.now) (length (map.entries entry.now.revisions))) }
    ensures fits { OnOk result (IsEntryLine (archive, original.now) (whole entry.now)
        (length (map.entries entry.now.revisions))) }
{
    out.extend_from_slice(b"entry ")?;
    write_field(out, archive.as_bytes(), b' ')?;
    write_whole(out, entry.whole())?;
    write_number(out, entry.revisions() as u64, b' ')?;
    write_field(out, original.as_bytes(), b'\n')
}

/// Writes a line for each memento.
fn write_mementos(out: &mut Vec<u8>, mementos: &[Memento]) -> Result<(), AllocError>
    ensures written { OnOk result (out.new.items ≡ out.old.items ++ flat_map memento_line mementos.now) }
    ensures fits { OnOk result (All IsMemento mementos.now) }
{
    for memento in mementos {
        write_memento(out, memento)?;
    }
    Ok(())
}

/// Writes a revision's line.
fn write_part_line(out: &mut Vec<u8>, revision: u64, count: usize) -> Result<(), AllocError>
    ensures written { OnOk result (out.new.items ≡ out.old.items ++ part_line revision count) }
    ensures fits { IsPartLine revision count }
{
    out.extend_from_slice(b"at ")?;
    write_number(out, revision, b' ')?;
    write_number(out, count as u64, b'\n')
}

/// Writes a revision's line, and a line for each of its mementos.
fn write_part(out: &mut Vec<u8>, revision: u64, mementos: &[Memento]) -> Result<(), AllocError>
    ensures written { OnOk result (out.new.items ≡ out.old.items
        ++ (part_line revision (length mementos.now) ++ flat_map memento_line mementos.now)) }
    ensures fits { OnOk result (IsPartLine revision (length mementos.now) × All IsMemento mementos.now) }
{
    write_part_line(out, revision, mementos.len())?;
    write_mementos(out, mementos)
}

/// Writes the entry's revisions in order, each with its mementos.
fn write_parts(out: &mut Vec<u8>, entry: &Entry) -> Result<(), AllocError>
    ensures written { OnOk result (out.new.items ≡ out.old.items
        ++ flat_map part_text (map.entries entry.now.revisions)) }
    ensures fits { OnOk result (All IsPart (map.entries entry.now.revisions)) }
{
    for k in 0..entry.revisions() {
        write_part(out, entry.revision(k), entry.mementos(k))?;
    }
    Ok(())
}

/// Writes the lines of an entry, in format 2. After an error some of them may have been written.
pub fn write_entry(
    out: &mut Vec<u8>,
    archive: ArchiveName,
    original: &Original,
    entry: &Entry,
) -> Result<(), AllocError>
    ensures written { OnOk result (out.new.items ≡ out.old.items
        ++ entry_text ((archive, original.now), entry.now)) }
    ensures fits { OnOk result (IsEntry ((archive, original.now), entry.now)) }
{
    write_entry_line(out, archive, original, entry)?;
    write_parts(out, entry)
}

/// Writes the entries by archive, then by original.
fn write_entries(out: &mut Vec<u8>, state: &State) -> Result<(), AllocError>
    ensures written { OnOk result (out.new.items ≡ out.old.items
        ++ flat_map entry_text (map.entries state.now)) }
    ensures fits { OnOk result (All IsEntry (map.entries state.now)) }
{
    for ((archive, original), entry) in state.rows() {
        write_entry(out, archive, original, entry)?;
    }
    Ok(())
}

/// How many entries have a stamp above the start.
fn count_above(stamped: &Stamped, start: u64) -> u64
    ensures { result ≡ length (map.entries (entries_above stamped.now start)) }
{
    let held = stamped.index().state();
    // Called for its contract, which bounds how many entries there are.
    let _all = held.len();
    let mut count = 0;
    for ((archive, original), _) in held.rows() {
        if stamped.is_above(archive, original, start) {
            count += 1;
        }
    }
    count
}

/// Writes the entry, if its stamp is above the start.
fn write_if_above(
    out: &mut Vec<u8>,
    stamped: &Stamped,
    start: u64,
    archive: ArchiveName,
    original: &Original,
    entry: &Entry,
) -> Result<(), AllocError>
    ensures written { OnOk result (out.new.items ≡ out.old.items
        ++ flat_map entry_text (filter (above stamped.now start) (((archive, original.now), entry.now) ∷ []))) }
    ensures fits { OnOk result
        (All IsEntry (filter (above stamped.now start) (((archive, original.now), entry.now) ∷ []))) }
{
    if !stamped.is_above(archive, original, start) {
        return Ok(());
    }
    write_entry(out, archive, original, entry)
}

/// Writes the entries with a stamp above the start, by archive, then by original.
fn write_entries_above(out: &mut Vec<u8>, stamped: &Stamped, start: u64) -> Result<(), AllocError>
    ensures written { OnOk result (out.new.items ≡ out.old.items
        ++ flat_map entry_text (map.entries (entries_above stamped.now start))) }
    ensures fits { OnOk result (All IsEntry (map.entries (entries_above stamped.now start))) }
{
    for ((archive, original), entry) in stamped.index().state().rows() {
        write_if_above(out, stamped, start, archive, original, entry)?;
    }
    Ok(())
}

/// Writes the number of a state's entries, and the entries.
fn write_all_counted(out: &mut Vec<u8>, state: &State) -> Result<(), AllocError>
    ensures written { OnOk result (out.new.items ≡ out.old.items ++ counted_text (map.entries state.now)) }
    ensures fits { OnOk result (AreEntries (map.entries state.now)) }
{
    write_number(out, state.len() as u64, b'\n')?;
    write_entries(out, state)
}

/// Writes the number of the entries with a stamp above the start, and these entries, from a walk over all entries.
fn write_above_counted(out: &mut Vec<u8>, stamped: &Stamped, start: u64) -> Result<(), AllocError>
    ensures written { OnOk result (out.new.items ≡ out.old.items
        ++ counted_text (map.entries (entries_above stamped.now start))) }
    ensures fits { OnOk result (AreEntries (map.entries (entries_above stamped.now start))) }
{
    write_number(out, count_above(stamped, start), b'\n')?;
    write_entries_above(out, stamped, start)
}

/// Writes the number of the entries with a stamp above the start, and these entries.
fn write_counted(out: &mut Vec<u8>, stamped: &Stamped, start: u64) -> Result<(), NoMemory>
    ensures written { OnOk result (out.new.items ≡ out.old.items
        ++ counted_text (map.entries (entries_above stamped.now start))) }
    ensures fits { OnOk result (AreEntries (map.entries (entries_above stamped.now start))) }
{
    match stamped.few_above(start)? {
        Some(state) => write_all_counted(out, &state)?,
        None => write_above_counted(out, stamped, start)?,
    }
    Ok(())
}

/// Writes the second line of a delta's text: the incarnation, and the first and the last number of its merges. After an
/// error some of it may have been written.
pub fn write_span(
    out: &mut Vec<u8>,
    incarnation: u64,
    start: u64,
    end: u64,
) -> Result<(), AllocError>
    ensures written { OnOk result (out.new.items ≡ out.old.items ++ from_line incarnation start end) }
    ensures fits { (incarnation < 2 ^ 64) × (end < 2 ^ 64) }
{
    out.extend_from_slice(b"from ")?;
    write_number(out, incarnation, b' ')?;
    write_number(out, start, b' ')?;
    write_number(out, end, b'\n')
}

/// The text, in format 2, of what the merges after a cursor changed, or of everything if there is no cursor of this
/// incarnation.
///
/// Takes time linear in the text and, for each entry in it, time logarithmic in the number of keys. If more than an
/// eighth of all stamps are above the start, it looks up the stamp of every entry of the state instead, twice.
pub fn write_delta(
    alloc: Global,
    stamped: &Stamped,
    cursor: Option<Cursor>,
) -> Result<Vec<u8>, NoMemory>
    ensures written { IfOk result (λ text. text.items ≡ delta_text (delta_from stamped.now cursor)) }
    ensures fits { IfOk result (λ _. IsDelta (delta_from stamped.now cursor)) }
{
    let start = stamped.start_from(cursor);
    let mut out = Vec::new(alloc);
    out.extend_from_slice(b"memento-delta 2\n")?;
    write_span(&mut out, stamped.incarnation(), start, stamped.number())?;
    out.extend_from_slice(b"entries ")?;
    write_counted(&mut out, stamped, start)?;
    out.extend_from_slice(b"end\n")?;
    Ok(out)
}

/// The text of a state, in format 2. Takes time linear in the text.
pub fn write_state(alloc: Global, state: &State) -> Result<Vec<u8>, NoMemory>
    ensures written { IfOk result (λ text. text.items ≡ state_text state.now) }
    ensures fits { IfOk result (λ _. IsState state.now) }
{
    let mut out = Vec::new(alloc);
    out.extend_from_slice(b"memento-state 2\nentries ")?;
    write_number(&mut out, state.len() as u64, b'\n')?;
    write_entries(&mut out, state)?;
    out.extend_from_slice(b"end\n")?;
    Ok(out)
}
