//! The originals that rounds look after: those of the settings, and those of a file. A text of the file is compared
//! with the one that was read last, and another text is read anew.
ghost use Rattle.std.specs.Prelude.{◌≡◌, ◌≢◌, ◌||◌, ◌++◌, ◌↔◌, ℕ, List, IfOk, IsTrue, OnErr, OnOk, Some};
ghost use Rattle.std.specs.Prelude.{count_by, is_some, not, option_map, take};
ghost use Rattle.std.specs.Io.KnownBytes.{Appends};
ghost use Rattle.original_list.specs.Lists.{each_once};
ghost use Rattle.original_list.specs.Rows.{rows_of, bad_lines, is_bad, most_told, originals_of};
ghost use Rattle.service_log.specs.Logs.{list_line};
ghost use Rattle.round_standing.specs.Listing.{IsRead, IsReported, bad_report, list_of};

use forgetting::{FileFault, read_file};
use memento_time::{NoMemory, Original};
use original_list::{Listed, each_once, read_list};
use round_values::shuffle;
use service_log::ListMatter;
use service_settings::Settings;
use service_threads::ServeFault;
use std::alloc::{AllocGlobal, Global};
use std::hash::RandomState;
use std::io::Write;
use std::rt::Files;

/// Which lines of a text hold no originals.
#[derive(Drop)]
pub(crate) struct BadLines {
    /// The numbers of the first of them, from 1 on.
    pub(crate) first: Vec<usize>,
    /// How many there are.
    pub(crate) count: usize,
}

/// What the file of originals held when it was read last, apart from its originals.
#[derive(Drop)]
struct Sheet {
    text: Vec<u8>,
    bad: BadLines,
}

/// The originals that rounds look after.
#[derive(Drop)]
pub struct Originals {
    /// Those of the settings and of the file; `None` if those of the settings alone.
    all: Option<Vec<Original>>,
    /// Of which text of the file they are.
    sheet: Option<Sheet>,
    /// Whether the book of wishes was told of them.
    pub is_booked: bool,
}

impl Originals {
    /// Nothing is read yet.
    pub(crate) const NONE: Originals = Originals {
        all: None,
        sheet: None,
        is_booked: false,
    };

    /// Whether the file held this text when it was read last.
    fn is_of(&self, text: &[u8]) -> bool
        ensures { IsTrue result ↔ (option_map (λ sheet. sheet.text.items) self.now.sheet ≡ Some text.now) }
    {
        match &self.sheet {
            Some(sheet) => sheet.text.as_slice() == text,
            None => false,
        }
    }

    /// Which lines of the file hold no originals, if it was read.
    pub(crate) fn bad(&self) -> Option<&BadLines> {
        match &self.sheet {
            Some(sheet) => Some(&sheet.bad),
            None => None,
        }
    }

    /// Takes in the originals of a file that holds this text, unless it held the same when it was read last. By the
    /// seed an order of one's own is made, if the settings ask for one.
    pub fn read(
        &mut self,
        alloc: Global,
        settings: &Settings,
        text: Vec<u8>,
        keys: RandomState,
        seed: u64,
    ) -> Result<(), NoMemory>
        ensures text { OnOk result (option_map (λ sheet. sheet.text.items) self.new.sheet ≡ Some text.items) }
        ensures same { option_map (λ sheet. sheet.text.items) self.old.sheet ≡ Some text.items → self.new ≡ self.old }
        ensures read { option_map (λ sheet. sheet.text.items) self.old.sheet ≢ Some text.items
            → OnOk result (IsRead settings.now text.items self.new.all) }
        ensures err { OnErr result (self.new ≡ self.old) }
    {
        if self.is_of(&text) {
            return Ok(());
        }
        let (mut originals, bad) = list_of(alloc, settings, &text, keys)?;
        if settings.timing.again.is_some() {
            shuffle(&mut originals, seed);
        }
        *self = Originals {
            all: Some(originals),
            sheet: Some(Sheet { text, bad }),
            is_booked: false,
        };
        Ok(())
    }

    /// The originals that rounds look after by these settings.
    pub fn listed<'a>(&'a self, settings: &'a Settings) -> &'a [Original]
        ensures { result.now ≡ list_of self.now.all settings.now.originals }
    {
        match &self.all {
            Some(all) => all,
            None => &settings.originals,
        }
    }

    /// Whether all originals of these settings are known: none stand in a file that wasn't read yet.
    pub fn is_whole(&self, settings: &Settings) -> bool
        ensures { result ≡ (is_some self.now.all || not (is_some settings.now.wishing.originals_file)) }
    {
        self.all.is_some() || settings.wishing.originals_file.is_none()
    }
}

/// The originals of the settings, and then those of a text, each once; and the lines of the text that hold none.
fn list_of(
    alloc: Global,
    settings: &Settings,
    text: &[u8],
    keys: RandomState,
) -> Result<(Vec<Original>, BadLines), NoMemory>
    ensures originals { IfOk result (λ it. it.0.items ≡
        each_once (settings.now.originals.items ++ originals_of (rows_of text.now))) }
    ensures bad { IfOk result (λ it. it.1.first.items ≡ take most_told (bad_lines 1 (rows_of text.now))) }
    ensures count { IfOk result (λ it. it.1.count ≡ count_by is_bad (rows_of text.now)) }
{
    let listed = read_list(alloc, text)?;
    let originals = each_once(alloc, &settings.originals, &listed.originals, keys)?;
    let Listed {
        originals: _,
        bad: first,
        bad_count: count,
    } = listed;
    Ok((originals, BadLines { first, count }))
}

/// Writes a line about the file of originals.
fn say_matter<W: Write>(matter: ListMatter, out: &mut W) -> Result<(), ServeFault>
    ensures { OnOk result (Appends (W.contents out.old) (W.contents out.new) (list_line matter)) }
{
    writeln!(out, "list: {matter}")?;
    out.flush()?;
    Ok(())
}

/// Writes which lines hold no originals.
fn say_bad<W: Write>(listed: &Listed, out: &mut W) -> Result<(), ServeFault>
    ensures { OnOk result (Appends (W.contents out.old) (W.contents out.new)
        (bad_report listed.now.bad.items listed.now.bad_count)) }
{
    for line in &listed.bad {
        say_matter(ListMatter::Bad(*line as u64), out)?;
    }
    let more = listed.bad_count.saturating_sub(listed.bad.len());
    if more > 0 {
        say_matter(ListMatter::More(more as u64), out)?;
    }
    Ok(())
}

/// Reads the file of originals, if the settings name one, and writes which of its lines hold none, in the log's words:
/// the first 20 of them by their numbers, and how many more there are. If it can't be read, that is written, and no
/// error.
///
/// `NoMemory` before anything is written. `Device` if a write fails.
pub fn check_list<R: Files + AllocGlobal, W: Write>(
    rt: &R,
    settings: &Settings,
    out: &mut W,
) -> Result<(), ServeFault>
    ensures { OnOk result ((bytes : List ℕ) × IsReported settings.now.wishing.originals_file bytes
        × Appends (W.contents out.old) (W.contents out.new) bytes) }
{
    let Some(path) = &settings.wishing.originals_file else {
        return Ok(());
    };
    let text = match read_file(rt, path.as_str()) {
        Ok(text) => text,
        Err(FileFault::NoMemory) => return Err(ServeFault::NoMemory),
        Err(FileFault::Unread) => return say_matter(ListMatter::Unreadable, out),
    };
    let Ok(listed) = read_list(rt.alloc(), &text) else {
        return Err(ServeFault::NoMemory);
    };
    say_bad(&listed, out)
}
