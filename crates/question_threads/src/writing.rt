//! Writes answers.
ghost use Rattle.std.specs.Prelude.{◌≡◌, OnOk, OnErr};
ghost use Rattle.std.specs.Io.KnownBytes.{Appends};
ghost use Rattle.question_threads.specs.Queued.{AppendsBeginning};

use crate::faults::AskFault;
use std::io::Write;

/// Writes a text and flushes it, or writes a beginning of it if the writer fails.
pub(crate) fn write_text<W: Write>(text: &[u8], out: &mut W) -> Result<(), AskFault>
    ensures ok { OnOk result (Appends (W.contents out.old) (W.contents out.new) text.now) }
    ensures err { OnErr result (AppendsBeginning (W.contents out.old) (W.contents out.new) text.now) }
{
    let mut rest = text;
    while !rest.is_empty() {
        match out.write(rest) {
            Ok(0) => return Err(AskFault::Device),
            Ok(count) => {
                let (_, after) = rest.split_at(count);
                rest = after;
            }
            Err(error) => return Err(AskFault::from(error)),
        }
    }
    out.flush()?;
    Ok(())
}
