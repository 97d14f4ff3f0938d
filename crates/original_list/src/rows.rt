//! What the lines of a file of originals hold.
ghost use Rattle.std.specs.Prelude.{◌≡◌, ◌++◌, ℕ, List, IfOk, OnOk, count_by, false, map, nat_eq, take};
ghost use Rattle.std.specs.List.{starts_with};
ghost use Rattle.original_list.specs.Rows as spec;
ghost use Rattle.original_list.specs.Rows.{TakesRow, bad_lines, is_bad, lines_of, mark, most_told, originals_of, rows_of};

use memento_time::{NoMemory, Original, trim};
use std::alloc::{AllocError, Global};
use timegate::original_at;

/// The most lines that are told by their numbers.
pub const MOST_TOLD: usize = 20;

/// The byte order mark in UTF-8.
const MARK: &[u8] = b"\xef\xbb\xbf";

/// What a line holds.
#[derive(Debug, Drop)]
pub enum Row {
    /// Nothing but blanks.
    Blank,
    /// An original, as a request's target names it.
    Named(Original),
    /// Something else.
    Bad,
}

/// What a file of originals holds.
#[derive(Debug, Drop)]
pub struct Listed {
    /// The originals, in the order of their lines.
    pub originals: Vec<Original>,
    /// The numbers of the first lines that hold something else, from 1 on.
    pub bad: Vec<usize>,
    /// How many such lines there are.
    pub bad_count: usize,
}

/// What a line holds, without the spaces, tabs and CRs at its ends.
pub fn row_of(alloc: Global, line: &[u8]) -> Result<Row, NoMemory>
    ensures { IfOk result (λ row. row ≡ spec.row_of line.now) }
{
    let line = trim(line, b" \t\r");
    if line.is_empty() {
        return Ok(Row::Blank);
    }
    match original_at(alloc, line)? {
        Some(original) => Ok(Row::Named(original)),
        None => Ok(Row::Bad),
    }
}

impl Listed {
    /// Takes in what the line with this number holds.
    fn take_row(&mut self, number: usize, row: Row) -> Result<(), NoMemory>
        ensures ok { OnOk result (TakesRow number row self.old self.new) }
    {
        match row {
            Row::Blank => {}
            Row::Named(original) => self.originals.push(original)?,
            Row::Bad => {
                if self.bad.len() < MOST_TOLD {
                    self.bad.push(number)?;
                }
                self.bad_count = self.bad_count.saturating_add(1);
            }
        }
        Ok(())
    }
}

/// The text behind a byte order mark, if it begins with that: editors write one, and it belongs to no line.
pub(crate) fn behind_mark(text: &[u8]) -> &[u8]
    ensures { result.now ≡ spec.behind_mark text.now }
{
    match text.strip_prefix(MARK) {
        Some(rest) => rest,
        None => text,
    }
}

/// The lines of a text, each of which ends at a LF or with the text.
pub(crate) fn lines_of(alloc: Global, text: &[u8]) -> Result<Vec<&[u8]>, AllocError>
    ensures { IfOk result (λ lines. map (λ line. line.now) lines.items ≡ lines_of text.now) }
{
    text.split(|byte| *byte == b'\n').collect(alloc)
}

/// Reads a text that has an original in each line: an original as a request's target names it, without the spaces, tabs
/// and CRs at the line's ends. Lines of nothing but these are passed over, and so is a byte order mark at the text's
/// beginning.
pub fn read_list(alloc: Global, text: &[u8]) -> Result<Listed, NoMemory>
    ensures originals { IfOk result (λ listed. listed.originals.items ≡ originals_of (rows_of text.now)) }
    ensures bad { IfOk result (λ listed. listed.bad.items ≡ take most_told (bad_lines 1 (rows_of text.now))) }
    ensures count { IfOk result (λ listed. listed.bad_count ≡ count_by is_bad (rows_of text.now)) }
{
    let lines = lines_of(alloc, behind_mark(text))?;
    let mut listed = Listed {
        originals: Vec::new(alloc),
        bad: Vec::new(alloc),
        bad_count: 0,
    };
    for (place, line) in lines.iter().enumerate() {
        let row = row_of(alloc, line)?;
        listed.take_row(place + 1, row)?;
    }
    Ok(listed)
}

/// A byte order mark before a text changes nothing of what its lines hold.
pub fn a_mark_changes_nothing()
    ensures { (text : List ℕ) → starts_with nat_eq text mark ≡ false → rows_of (mark ++ text) ≡ rows_of text }
{}
