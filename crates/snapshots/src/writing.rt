//! Writes a state as a snapshot, and cuts it while it is written.
ghost use Rattle.std.specs.Prelude.{◌≡◌, ◌≤◌, ◌<◌, ◌+◌, ◌++◌, ◌∷◌, [], List, Option, ℕ, length, codes, All, Any, OnOk, OnErr, IsErrOf};
ghost use Rattle.std.specs.FinMap as map;
ghost use Rattle.std.specs.Fmt.{decimal};
ghost use Rattle.std.specs.Io.KnownBytes.{Appends};
ghost use Rattle.harvest_lattice.specs.Lattice.{Key, Kept};
ghost use Rattle.replica_exchange.specs.StateText.{entry_text};
ghost use Rattle.snapshot_sections.specs.Sections.{section_text};
ghost use Rattle.snapshot_sections.specs.Writing.{AppendsLess};
ghost use Rattle.snapshots.specs.Snapshots.{Writes, WritesLess, IsShort, IsLong, longest_body};
ghost use Rattle.snapshots.specs.Standing.{Stands, Ended, Begun};

use crate::faults::WriteFault;
use harvest_lattice::{Entry, State};
use memento_time::{ArchiveName, Original};
use replica_exchange::write_entry;
use snapshot_sections::{write_bytes, write_first_line, write_last_line, write_section_line};
use std::alloc::Global;
use std::io::{self, Write};
use text_fields::write_decimal;

/// A section ends before the entry that would make its entries longer than this, unless that is its only one.
const SECTION: usize = 16_777_216;

/// No entry has more bytes, so that the text of a section with one entry is short enough to be read.
const LONGEST_BODY: usize = 268_435_400;

/// Writes a section: the text of the state of so many entries, whose lines these are. After an error the writer has a
/// beginning of the section more, and not all of it.
fn write_section<W: Write>(
    alloc: Global,
    writer: &mut W,
    entries: u64,
    body: &[u8],
) -> io::Result<()>
    requires { length body.now ≤ longest_body }
    ensures written { OnOk result (Appends (W.contents writer.old) (W.contents writer.new)
        (section_text (codes "memento-state 2\nentries " ++ (decimal entries ++ (10 ∷ (body.now ++ codes "end\n")))))) }
    ensures less { OnErr result (AppendsLess (W.contents writer.old) (W.contents writer.new)
        (section_text (codes "memento-state 2\nentries " ++ (decimal entries ++ (10 ∷ (body.now ++ codes "end\n")))))) }
{
    let mut head = Vec::new(alloc);
    head.extend_from_slice(b"memento-state 2\nentries ")?;
    write_decimal(&mut head, entries)?;
    head.push(b'\n')?;
    let end = b"end\n";
    let length = head.len() + body.len() + end.len();
    write_section_line(alloc, writer, length as u64)?;
    write_bytes(writer, &head)?;
    write_bytes(writer, body)?;
    write_bytes(writer, end)?;
    Ok(())
}

/// The section that is being made, and how many were written.
#[derive(Drop)]
struct Sections {
    alloc: Global,
    /// The lines of the entries of the section that is being made.
    body: Vec<u8>,
    /// How many entries these are.
    entries: u64,
    /// How many sections were written.
    written: u64,
    /// The lines of the entry that is added.
    entry: Vec<u8>,
}

impl Sections {
    fn new(alloc: Global) -> Sections
        ensures body { result.body.items ≡ [] }
        ensures entries { result.entries ≡ 0 }
        ensures written { result.written ≡ 0 }
    {
        Sections {
            alloc,
            body: Vec::new(alloc),
            entries: 0,
            written: 0,
            entry: Vec::new(alloc),
        }
    }

    /// Writes the section that is being made, and begins the next one.
    fn end_section<W: Write>(&mut self, writer: &mut W) -> Result<(), WriteFault>
        requires { length self.old.body.items ≤ longest_body }
        ensures ended { OnOk result ((start : Option (List ℕ)) (done : List (Key × Kept))
            → Stands start (W.contents writer.old) self.old.body.items self.old.entries self.old.written done
            → Stands start (W.contents writer.new) self.new.body.items self.new.entries self.new.written done) }
        ensures begun { OnErr result ((start : Option (List ℕ)) (done : List (Key × Kept))
            → Stands start (W.contents writer.old) self.old.body.items self.old.entries self.old.written done
            → Begun start (W.contents writer.new) done) }
        ensures empty { OnOk result (self.new.body.items ≡ []) }
        ensures no_entry { ¬ IsErrOf result WriteFault.TooLong }
        ensures entry { OnOk result (self.new.entry.items ≡ self.old.entry.items) }
    {
        let Some(more) = self.written.checked_add(1) else {
            return Err(WriteFault::NoMemory);
        };
        write_section(self.alloc, writer, self.entries, &self.body)?;
        self.body.clear();
        self.entries = 0;
        self.written = more;
        Ok(())
    }

    /// Begins a new section if the entry's lines don't fit into the one that is being made.
    fn make_room<W: Write>(&mut self, writer: &mut W) -> Result<(), WriteFault>
        requires body { length self.old.body.items ≤ longest_body }
        requires entry { length self.old.entry.items ≤ longest_body }
        ensures ended { OnOk result ((start : Option (List ℕ)) (done : List (Key × Kept))
            → Stands start (W.contents writer.old) self.old.body.items self.old.entries self.old.written done
            → Stands start (W.contents writer.new) self.new.body.items self.new.entries self.new.written done) }
        ensures begun { OnErr result ((start : Option (List ℕ)) (done : List (Key × Kept))
            → Stands start (W.contents writer.old) self.old.body.items self.old.entries self.old.written done
            → Begun start (W.contents writer.new) done) }
        ensures fits { OnOk result (length self.new.body.items + length self.new.entry.items ≤ longest_body) }
        ensures no_entry { ¬ IsErrOf result WriteFault.TooLong }
        ensures entry { OnOk result (self.new.entry.items ≡ self.old.entry.items) }
    {
        if self.body.is_empty() || self.body.len() + self.entry.len() <= SECTION {
            return Ok(());
        }
        self.end_section(writer)
    }

    /// Adds the lines of an entry.
    fn add<W: Write>(
        &mut self,
        writer: &mut W,
        archive: ArchiveName,
        original: &Original,
        entry: &Entry,
    ) -> Result<(), WriteFault>
        requires { length self.old.body.items ≤ longest_body }
        ensures added { OnOk result ((start : Option (List ℕ)) (done : List (Key × Kept))
            → Stands start (W.contents writer.old) self.old.body.items self.old.entries self.old.written done
            → Stands start (W.contents writer.new) self.new.body.items self.new.entries self.new.written
            (done ++ ((archive, original.now), entry.now) ∷ [])) }
        ensures begun { OnErr result ((start : Option (List ℕ)) (done : List (Key × Kept))
            → Stands start (W.contents writer.old) self.old.body.items self.old.entries self.old.written done
            → Begun start (W.contents writer.new) done) }
        ensures short { OnOk result (length self.new.body.items ≤ longest_body) }
        ensures too_long { IsErrOf result WriteFault.TooLong → IsLong ((archive, original.now), entry.now) }
    {
        self.entry.clear();
        write_entry(&mut self.entry, archive, original, entry)?;
        if self.entry.len() > LONGEST_BODY {
            return Err(WriteFault::TooLong);
        }
        self.make_room(writer)?;
        let Some(more) = self.entries.checked_add(1) else {
            return Err(WriteFault::NoMemory);
        };
        self.body.extend_from_slice(&self.entry)?;
        self.entries = more;
        Ok(())
    }

    /// Writes the section that is being made, if it has an entry.
    fn end_begun<W: Write>(&mut self, writer: &mut W) -> Result<(), WriteFault>
        requires { length self.old.body.items ≤ longest_body }
        ensures ended { OnOk result ((start : Option (List ℕ)) (done : List (Key × Kept))
            → Stands start (W.contents writer.old) self.old.body.items self.old.entries self.old.written done
            → Stands start (W.contents writer.new) self.new.body.items self.new.entries self.new.written done) }
        ensures begun { OnErr result ((start : Option (List ℕ)) (done : List (Key × Kept))
            → Stands start (W.contents writer.old) self.old.body.items self.old.entries self.old.written done
            → Begun start (W.contents writer.new) done) }
        ensures empty { OnOk result (self.new.body.items ≡ []) }
        ensures no_entry { ¬ IsErrOf result WriteFault.TooLong }
    {
        if self.body.is_empty() {
            return Ok(());
        }
        self.end_section(writer)
    }

    /// Writes what is left, and the last line.
    fn end<W: Write>(mut self, writer: &mut W) -> Result<(), WriteFault>
        requires { length self.body.items ≤ longest_body }
        ensures ended { OnOk result ((start : Option (List ℕ)) (done : List (Key × Kept))
            → Stands start (W.contents writer.old) self.body.items self.entries self.written done
            → Ended start (W.contents writer.new) done) }
        ensures begun { OnErr result ((start : Option (List ℕ)) (done : List (Key × Kept))
            → Stands start (W.contents writer.old) self.body.items self.entries self.written done
            → Begun start (W.contents writer.new) done) }
        ensures no_entry { ¬ IsErrOf result WriteFault.TooLong }
    {
        self.end_begun(writer)?;
        write_last_line(self.alloc, writer, self.written)?;
        Ok(())
    }
}

/// Writes a snapshot of the state: the texts of states into which it is cut. At most one of these texts is in memory at
/// a time, of some 16 MiB, or of one entry where that is longer. The state isn't copied.
///
/// `TooLong` if an entry is too long for any text that can be read. `NotWritten` and `NoMemory` may come at any time.
/// After an error the writer has a beginning of a snapshot of the state's first entries, and not all of that snapshot:
/// so nothing is read of it (`a_snapshot_is_read_back`, `cut`).
pub fn write_snapshot<W: Write>(
    alloc: Global,
    state: &State,
    writer: &mut W,
) -> Result<(), WriteFault>
    ensures written { OnOk result (Writes (W.contents writer.old) (W.contents writer.new) state.now) }
    ensures less { OnErr result (WritesLess (W.contents writer.old) (W.contents writer.new) state.now) }
    ensures short { OnOk result (All IsShort (map.entries state.now)) }
    ensures too_long { IsErrOf result WriteFault.TooLong → Any IsLong (map.entries state.now) }
{
    write_first_line(writer)?;
    let mut sections = Sections::new(alloc);
    for ((archive, original), entry) in state.rows() {
        sections.add(writer, archive, original, entry)?;
    }
    sections.end(writer)?;
    Ok(())
}
