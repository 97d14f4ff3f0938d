//! Why an archive's mementos are missing in an answer.
ghost use Rattle.std.specs.Prelude.{◌≡◌, Some};
ghost use Rattle.std.specs.Option.{option_copied};
ghost use Rattle.single_questions.specs.Failings.{failing_of, failing_words, line_words};

use harvest_lattice::Harvest;
use harvester::WalkFault;
use memento_time::{ArchiveName, Original};
use std::{fmt, str};

/// Why an archive's mementos are missing in an answer, or some of them.
#[derive(Clone, Copy, Debug, PartialEq, Eq)]
pub enum Failing {
    /// Its walk gave no harvest.
    Walk(WalkFault),
    /// Pages of its TimeMap are missing.
    Part,
    /// It failed too often, or asked to be left alone, and so it wasn't asked.
    Unasked,
    /// The address of its TimeMap of the original would be too long.
    TooLong,
}

impl fmt::Display for Failing {
    ghost output = { λ failing. Some (failing_words failing) };

    fn fmt<W: fmt::Write>(&self, f: &mut fmt::Formatter<W>) -> fmt::Result {
        match self {
            Failing::Walk(fault) => write!(f, "{fault}"),
            Failing::Part => f.write_str("pages are missing"),
            Failing::Unasked => f.write_str("not asked, as it is left alone"),
            Failing::TooLong => f.write_str("an address of more than 8,192 bytes"),
        }
    }
}

/// Why an archive's walk didn't give all of its mementos, if it didn't.
pub fn failing_of(walked: &Result<Harvest, WalkFault>) -> Option<Failing>
    ensures { result ≡ failing_of walked.now }
{
    match walked {
        Ok(harvest) if harvest.is_part() => Some(Failing::Part),
        Ok(_) => None,
        Err(fault) => Some(Failing::Walk(*fault)),
    }
}

/// What is said of an archive that failed: its name and why, and before it the original if there are several.
#[derive(Clone, Copy)]
pub struct FailingLine<'a> {
    pub original: Option<&'a Original>,
    pub archive: &'a ArchiveName,
    pub failing: Failing,
}

impl<'a> fmt::Display for FailingLine<'a> {
    ghost output = { λ line. Some (line_words (option_copied line.original) line.archive.now line.failing) };

    fn fmt<W: fmt::Write>(&self, f: &mut fmt::Formatter<W>) -> fmt::Result {
        let (name, failing) = (name_text(self.archive), self.failing);
        match self.original {
            Some(original) => write!(f, "{}: {name}: {failing}", original_text(original)),
            None => write!(f, "{name}: {failing}"),
        }
    }
}

/// The name of an archive as a text.
fn name_text(name: &ArchiveName) -> &str
    ensures { result.now ≡ name.now }
{
    match str::from_utf8(name.as_bytes()) {
        Ok(text) => text,
        Err(_) => unreachable!(),
    }
}

/// An original as a text.
fn original_text(original: &Original) -> &str
    ensures { result.now ≡ original.now }
{
    match str::from_utf8(original.as_bytes()) {
        Ok(text) => text,
        Err(_) => unreachable!(),
    }
}
