//! Lines of which there may be several, one behind the other.
ghost use Rattle.std.specs.Prelude.{◌≡◌, ◌++◌, IfOk, OnOk, Some, string_bytes};
ghost use Rattle.std.specs.Io.KnownBytes.{Appends};
ghost use Rattle.aggregator.specs.Ending.{behind};
ghost use Rattle.aggregator.specs.Telling.{all_lines};

use std::alloc::{AllocError, Global};
use std::fmt;
use std::io::{self, Write};

/// Lines behind another one, each after a LF.
#[derive(Clone, Copy)]
pub(crate) struct Behind<'a>(pub(crate) &'a [String]);

impl<'a> fmt::Display for Behind<'a> {
    ghost output = { λ lines. Some (behind lines.0.now) };

    fn fmt<W: fmt::Write>(&self, f: &mut fmt::Formatter<W>) -> fmt::Result {
        for line in self.0 {
            write!(f, "\n{line}")?;
        }
        Ok(())
    }
}

/// Lines, each behind the same words and before a LF.
fn text_of(alloc: Global, words: &str, lines: &[String]) -> Result<String, AllocError>
    ensures { IfOk result (λ text. string_bytes text ≡ all_lines words.now lines.now) }
{
    let mut text = String::new(alloc);
    for line in lines {
        text.push_str(words)?;
        text.push_str(line.as_str())?;
        text.push_str("\n")?;
    }
    Ok(text)
}

/// Writes lines, each behind the same words. That is one call of the writer.
///
/// An error if their text gets no memory, before anything is written, or if the writer fails.
pub(crate) fn write_lines<W: Write>(
    alloc: Global,
    words: &str,
    lines: &[String],
    out: &mut W,
) -> io::Result<()>
    ensures { OnOk result (Appends (W.contents out.old) (W.contents out.new) (all_lines words.now lines.now)) }
{
    let text = text_of(alloc, words, lines)?;
    out.write_all(text.as_bytes())?;
    out.flush()?;
    Ok(())
}
