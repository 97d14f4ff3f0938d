//! Reads the texts, one after the other.
ghost use Rattle.std.specs.Prelude.{◌≡◌, ◌<◌, ◌≤◌, ◌++◌, ◌∷◌, [], length, take, IfOk, OnOk, IsErrOf, IfSome, MatchOption};
ghost use Rattle.std.specs.Io.KnownBytes.{Consumes, IsAtEnd, Keeps};
ghost use Rattle.text_fields.specs.Parts.{Lacks};
ghost use Rattle.snapshot_sections.specs.Sections.{first_line, last_line, line_text, section_text, IsLine};
ghost use Rattle.snapshot_sections.specs.Refusals.{LacksFirstLine, LacksLine, LacksSection, LacksShortLine, longest_section};

use crate::fault::SectionFault;
use crate::lines::{Line, line_of};
use std::alloc::Global;
use std::io::{ErrorKind, Read};

/// No line has more bytes before its LF.
const LONGEST_LINE: usize = 32;

/// The most bytes of a text.
const LONGEST_TEXT: u64 = 268_435_456;

/// So many times in a row may a read be interrupted.
const MOST_INTERRUPTIONS: usize = 1_000;

/// Reads what comes at once, and waits for some bytes. None only at the end, or without room.
fn read_some<R: Read>(reader: &mut R, buffer: &mut [u8]) -> Result<usize, SectionFault>
    ensures bound { IfOk result (λ count. count ≤ length buffer.new) }
    ensures read { IfOk result (λ count. Consumes (R.remaining reader.old) (R.remaining reader.new) (take count buffer.new)) }
    ensures end { IfOk result (λ count. count ≡ 0 → 0 < length buffer.new → IsAtEnd (R.remaining reader.new)) }
    ensures fault { ¬ IsErrOf result SectionFault.NotSections }
{
    for _ in 0..MOST_INTERRUPTIONS {
        match reader.read(buffer) {
            Ok(count) => return Ok(count),
            Err(error) if error.kind() == ErrorKind::Interrupted => {}
            Err(_) => return Err(SectionFault::NotRead),
        }
    }
    Err(SectionFault::NotRead)
}

/// Fills the buffer. `NotSections` if too few bytes are left.
fn fill<R: Read>(reader: &mut R, buffer: &mut [u8]) -> Result<(), SectionFault>
    ensures read { OnOk result (Consumes (R.remaining reader.old) (R.remaining reader.new) buffer.new) }
    ensures refused { IsErrOf result SectionFault.NotSections
        → IfSome (R.remaining reader.old) (λ bytes. length bytes < length buffer.new) }
{
    let mut filled = 0;
    while filled < buffer.len() {
        let count = read_some(reader, &mut buffer[filled..])?;
        if count == 0 {
            return Err(SectionFault::NotSections);
        }
        filled += count;
    }
    Ok(())
}

fn read_byte<R: Read>(reader: &mut R) -> Result<u8, SectionFault>
    ensures read { IfOk result (λ byte. Consumes (R.remaining reader.old) (R.remaining reader.new) (byte ∷ [])) }
    ensures refused { IsErrOf result SectionFault.NotSections → IsAtEnd (R.remaining reader.old) }
{
    let mut buffer = [0u8];
    fill(reader, &mut buffer)?;
    Ok(buffer[0])
}

/// The bytes up to the next LF, of which there are few.
fn read_line<R: Read>(alloc: Global, reader: &mut R) -> Result<Vec<u8>, SectionFault>
    ensures read { IfOk result (λ line.
        Consumes (R.remaining reader.old) (R.remaining reader.new) (line.items ++ 10 ∷ [])) }
    ensures lacks { IfOk result (λ line. Lacks 10 line.items) }
    ensures refused { IsErrOf result SectionFault.NotSections → IfSome (R.remaining reader.old) LacksShortLine }
{
    let mut line = Vec::new(alloc);
    for _ in 0..LONGEST_LINE {
        let byte = read_byte(reader)?;
        if byte == b'\n' {
            return Ok(line);
        }
        line.push(byte)?;
    }
    Err(SectionFault::NotSections)
}

/// Reads the first line of a snapshot. `NotSections` if the bytes don't begin with it.
pub fn read_first_line<R: Read>(alloc: Global, reader: &mut R) -> Result<(), SectionFault>
    ensures read { OnOk result (Consumes (R.remaining reader.old) (R.remaining reader.new) first_line) }
    ensures refused { IsErrOf result SectionFault.NotSections → IfSome (R.remaining reader.old) LacksFirstLine }
{
    let line = read_line(alloc, reader)?;
    if line.as_slice() != b"memento-snapshot 1".as_slice() {
        return Err(SectionFault::NotSections);
    }
    Ok(())
}

/// The next line between texts.
fn next_line<R: Read>(alloc: Global, reader: &mut R) -> Result<Line, SectionFault>
    ensures read { IfOk result (λ line. Consumes (R.remaining reader.old) (R.remaining reader.new) (line_text line)) }
    ensures fits { IfOk result IsLine }
    ensures refused { IsErrOf result SectionFault.NotSections → IfSome (R.remaining reader.old) LacksLine }
{
    let line = read_line(alloc, reader)?;
    line_of(&line).ok_or(SectionFault::NotSections)
}

/// A text of so many bytes.
fn read_text<R: Read>(alloc: Global, reader: &mut R, size: u64) -> Result<Vec<u8>, SectionFault>
    ensures read { IfOk result (λ text.
        Consumes (R.remaining reader.old) (R.remaining reader.new) text.items) }
    ensures size { IfOk result (λ text. length text.items ≡ size) }
    ensures within { IfOk result (λ text. length text.items ≤ longest_section) }
    ensures refused { IsErrOf result SectionFault.NotSections → size ≤ longest_section
        → IfSome (R.remaining reader.old) (λ bytes. length bytes < size) }
{
    if size > LONGEST_TEXT {
        return Err(SectionFault::NotSections);
    }
    let mut text = Vec::new(alloc);
    text.resize(size as usize, 0)?;
    fill(reader, &mut text)?;
    Ok(text)
}

/// Refuses what isn't at its end.
fn expect_end<R: Read>(reader: &mut R) -> Result<(), SectionFault>
    ensures read { OnOk result (Consumes (R.remaining reader.old) (R.remaining reader.new) []
        × IsAtEnd (R.remaining reader.new)) }
    ensures refused { IsErrOf result SectionFault.NotSections
        → IfSome (R.remaining reader.old) (λ bytes. 0 < length bytes) }
{
    let mut byte = [0u8];
    match read_some(reader, &mut byte)? {
        0 => Ok(()),
        _ => Err(SectionFault::NotSections),
    }
}

/// The next text, behind the first line and `count` texts. `None` if there is none, and what was read is a whole
/// snapshot of just so many.
///
/// `NotSections` if neither a text nor the last line with this number follows, or if something follows that line, and
/// never for what was written. Then the reader stands anywhere, and nothing of the snapshot may be taken.
pub fn next_section<R: Read>(
    alloc: Global,
    reader: &mut R,
    count: u64,
) -> Result<Option<Vec<u8>>, SectionFault>
    ensures read { IfOk result (λ found. MatchOption found
        (Consumes (R.remaining reader.old) (R.remaining reader.new) (last_line count) × IsAtEnd (R.remaining reader.new))
        (λ text. Consumes (R.remaining reader.old) (R.remaining reader.new) (section_text text.items))) }
    ensures within { IfOk result (λ found. IfSome found (λ text. length text.items ≤ longest_section)) }
    ensures refused { IsErrOf result SectionFault.NotSections → IfSome (R.remaining reader.old) (LacksSection count) }
{
    match next_line(alloc, reader)? {
        Line::Section(length) => {
            let text = read_text(alloc, reader, length)?;
            Ok(Some(text))
        }
        Line::Last(number) => {
            if number != count {
                return Err(SectionFault::NotSections);
            }
            expect_end(reader)?;
            Ok(None)
        }
    }
}
