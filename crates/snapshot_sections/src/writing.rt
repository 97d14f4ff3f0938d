//! Writes what stands around the texts.
ghost use Rattle.std.specs.Prelude.{◌<◌, ◌≤◌, ◌^◌, length, take, IfOk, OnOk, OnErr};
ghost use Rattle.std.specs.Io.KnownBytes.{Appends, Keeps};
ghost use Rattle.snapshot_sections.specs.Sections.{first_line, section_line, last_line};
ghost use Rattle.snapshot_sections.specs.Writing.{AppendsLess};

use std::alloc::Global;
use std::io::{self, ErrorKind, Write};
use text_fields::write_decimal;

/// So many times in a row may a write be interrupted.
const MOST_INTERRUPTIONS: usize = 1_000;

/// Writes what the writer takes at once, and waits until it takes some. `WriteZero` if it takes none.
fn write_some<W: Write>(writer: &mut W, bytes: &[u8]) -> io::Result<usize>
    ensures bound { IfOk result (λ count. count ≤ length bytes.now) }
    ensures some { IfOk result (λ count. 0 < count) }
    ensures written { IfOk result (λ count. Appends (W.contents writer.old) (W.contents writer.new) (take count bytes.now)) }
    ensures kept { OnErr result (Keeps (W.contents writer.old) (W.contents writer.new)) }
{
    for _ in 0..MOST_INTERRUPTIONS {
        match writer.write(bytes) {
            Ok(0) => return Err(io::Error::from(ErrorKind::WriteZero)),
            Ok(count) => return Ok(count),
            Err(error) if error.kind() == ErrorKind::Interrupted => {}
            Err(error) => return Err(error),
        }
    }
    Err(io::Error::from(ErrorKind::Interrupted))
}

/// Writes all of these bytes. After an error the writer has a beginning of the bytes more, and not all of them.
pub fn write_bytes<W: Write>(writer: &mut W, bytes: &[u8]) -> io::Result<()>
    ensures written { OnOk result (Appends (W.contents writer.old) (W.contents writer.new) bytes.now) }
    ensures less { OnErr result (AppendsLess (W.contents writer.old) (W.contents writer.new) bytes.now) }
{
    let mut written = 0;
    while written < bytes.len() {
        let count = write_some(writer, &bytes[written..])?;
        written += count;
    }
    Ok(())
}

/// Writes the first line. After an error the writer has a beginning of the line more, and not all of it.
pub fn write_first_line<W: Write>(writer: &mut W) -> io::Result<()>
    ensures written { OnOk result (Appends (W.contents writer.old) (W.contents writer.new) first_line) }
    ensures less { OnErr result (AppendsLess (W.contents writer.old) (W.contents writer.new) first_line) }
{
    write_bytes(writer, b"memento-snapshot 1\n")
}

/// Writes the line before a text of so many bytes. After an error the writer has a beginning of the line more, and not
/// all of it.
pub fn write_section_line<W: Write>(alloc: Global, writer: &mut W, length: u64) -> io::Result<()>
    ensures written { OnOk result (Appends (W.contents writer.old) (W.contents writer.new) (section_line length)) }
    ensures less { OnErr result (AppendsLess (W.contents writer.old) (W.contents writer.new) (section_line length)) }
{
    let mut line = Vec::new(alloc);
    line.extend_from_slice(b"section ")?;
    write_decimal(&mut line, length)?;
    line.push(b'\n')?;
    write_bytes(writer, &line)
}

/// Writes the last line, behind so many texts. After an error the writer has a beginning of the line more, and not all
/// of it.
pub fn write_last_line<W: Write>(alloc: Global, writer: &mut W, count: u64) -> io::Result<()>
    ensures written { OnOk result (Appends (W.contents writer.old) (W.contents writer.new) (last_line count)) }
    ensures less { OnErr result (AppendsLess (W.contents writer.old) (W.contents writer.new) (last_line count)) }
    ensures fits { count < 2 ^ 64 }
{
    let mut line = Vec::new(alloc);
    line.extend_from_slice(b"sections ")?;
    write_decimal(&mut line, count)?;
    line.push(b'\n')?;
    write_bytes(writer, &line)
}
