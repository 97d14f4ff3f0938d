//! How a line is written.
ghost use Rattle.std.specs.Prelude.{OnOk};
ghost use Rattle.std.specs.Io.KnownBytes.{Appends};
ghost use Rattle.service_log.specs.Logs.{log_line};

use crate::lines::Line;
use std::alloc::Global;
use std::io::{self, Write};

/// Writes a line behind `log: `. That is one call of the writer, so that lines of several threads don't mix.
///
/// An error if its text gets no memory, before anything is written, or if the writer fails.
pub fn write_line<W: Write>(alloc: Global, line: Line<'_>, log: &mut W) -> io::Result<()>
    ensures { OnOk result (Appends (W.contents log.old) (W.contents log.new) (log_line line.entry)) }
{
    let text = format!(in alloc; "log: {line}\n")?;
    log.write_all(text.as_bytes())?;
    log.flush()?;
    Ok(())
}
