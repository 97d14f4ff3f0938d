//! What is said on standard error while archives are asked.
ghost use Rattle.std.specs.Prelude.{◌≡◌};

use memento_time::{ArchiveName, Original};
use single_questions::{Failing, FailingLine};
use std::io::Write;

/// Says on standard error which archives failed, and at a terminal how many have answered. Whether that can be written
/// changes nothing.
#[derive(Clone, Copy)]
pub struct Teller<E> {
    err: E,
    /// Whether it is a terminal, at which progress is shown.
    is_terminal: bool,
}

/// Goes back to the begin of the line, and clears it.
const CLEAR: &str = "\r\x1b[K";

impl<E: Write> Teller<E> {
    /// Whether standard error is a terminal, the caller has to say.
    pub fn new(err: E, is_terminal: bool) -> Teller<E>
        ensures err { result.err ≡ err }
        ensures is_terminal { result.is_terminal ≡ is_terminal }
    {
        Teller { err, is_terminal }
    }

    /// Says why an archive failed, and for which original if several are asked for.
    pub(crate) fn failed(
        &mut self,
        original: Option<&Original>,
        archive: &ArchiveName,
        failing: Failing,
    ) {
        self.clear();
        let line = FailingLine {
            original,
            archive,
            failing,
        };
        let _ = writeln!(self.err, "{line}");
    }

    /// Says that the line with this number holds no original.
    pub(crate) fn bad_line(&mut self, number: u64) {
        self.clear();
        let _ = writeln!(self.err, "bad original: line {number}");
    }

    /// Shows at a terminal how many have answered, of how many if that is known.
    pub(crate) fn progress(&mut self, ended: usize, all: Option<usize>) {
        if !self.is_terminal {
            return;
        }
        let _ = match all {
            Some(all) => write!(self.err, "{CLEAR}{ended} of {all} archives have answered"),
            None => write!(self.err, "{CLEAR}{ended} originals are answered"),
        };
        let _ = self.err.flush();
    }

    /// Takes what progress is shown off the terminal.
    pub(crate) fn clear(&mut self) {
        if self.is_terminal {
            let _ = write!(self.err, "{CLEAR}");
            let _ = self.err.flush();
        }
    }
}
