//! What the log says of what is forgotten and withdrawn.
ghost use Rattle.std.specs.Prelude.{◌≡◌, Some};
ghost use Rattle.service_log.specs.Forgotten.{forgotten_words, kept_words, took_words, withdrawn_words};

use std::fmt;

/// So many entries are kept.
#[derive(Clone, Copy, Debug, PartialEq, Eq)]
pub struct KeptEntries(pub u64);

impl fmt::Display for KeptEntries {
    ghost output = { λ kept. Some (kept_words kept) };

    fn fmt<W: fmt::Write>(&self, f: &mut fmt::Formatter<W>) -> fmt::Result {
        write!(f, ", kept: {}", self.0)
    }
}

/// It took so many milliseconds.
#[derive(Clone, Copy, Debug, PartialEq, Eq)]
pub struct Took(pub u64);

impl fmt::Display for Took {
    ghost output = { λ took. Some (took_words took) };

    fn fmt<W: fmt::Write>(&self, f: &mut fmt::Formatter<W>) -> fmt::Result {
        write!(f, ", in {} milliseconds", self.0)
    }
}

/// How many entries were forgotten, how many are kept, and how long that took.
#[derive(Clone, Copy, Debug, PartialEq, Eq)]
pub struct Forgotten {
    pub entries: u64,
    pub kept: KeptEntries,
    pub took: Took,
}

impl Forgotten {
    /// So many entries were forgotten, so many are kept, and it took so many milliseconds.
    pub fn of(entries: u64, kept: u64, milliseconds: u64) -> Forgotten
        ensures entries { result.entries ≡ entries }
        ensures kept { result.kept.0 ≡ kept }
        ensures took { result.took.0 ≡ milliseconds }
    {
        Forgotten {
            entries,
            kept: KeptEntries(kept),
            took: Took(milliseconds),
        }
    }
}

impl fmt::Display for Forgotten {
    ghost output = { λ forgotten. Some (forgotten_words forgotten) };

    fn fmt<W: fmt::Write>(&self, f: &mut fmt::Formatter<W>) -> fmt::Result {
        write!(f, "{} entries{}{}", self.entries, self.kept, self.took)
    }
}

/// What the log says about the file of what is withdrawn.
#[derive(Clone, Copy, Debug, PartialEq, Eq)]
pub enum WithdrawnMatter {
    /// The line with this number names nothing.
    Bad(u64),
    /// So many more don't.
    More(u64),
    /// It can't be read.
    Unread,
    /// The same, where nothing was withdrawn before.
    Unreadable,
    /// It has too many archives.
    ManyArchives,
    /// It has too many prefixes.
    ManyPrefixes,
    /// There is no memory for it.
    NoMemory,
}

impl fmt::Display for WithdrawnMatter {
    ghost output = { λ matter. Some (withdrawn_words matter) };

    fn fmt<W: fmt::Write>(&self, f: &mut fmt::Formatter<W>) -> fmt::Result {
        match self {
            WithdrawnMatter::Bad(number) => write!(f, "line {number} names nothing"),
            WithdrawnMatter::More(count) => write!(f, "{count} more lines name nothing"),
            WithdrawnMatter::Unread => f.write_str("not read: what was withdrawn before stays so"),
            WithdrawnMatter::Unreadable => f.write_str("not read"),
            WithdrawnMatter::ManyArchives => f.write_str("refused: more than 1000 archives"),
            WithdrawnMatter::ManyPrefixes => f.write_str("refused: more than 1000 prefixes"),
            WithdrawnMatter::NoMemory => {
                f.write_str("no memory: what was withdrawn before stays so")
            }
        }
    }
}
