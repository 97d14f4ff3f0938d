//! The calls of a book of wishes.
use crate::lines::Line;
use anyhow::{Context, Result};
use memento_time::Original;
use original_sets::{Key, OriginalSet};
use std::alloc::Global;
use std::hash::RandomState;
use std::str;
use wish_list::{Found, Wishes};

/// The text of an original.
pub(crate) fn text_of(original: &Original) -> Result<&str> {
    str::from_utf8(original.as_bytes()).context("no text")
}

/// The originals whose numbers stand behind the word.
fn listed(alloc: Global, keys: RandomState, line: &Line) -> Result<OriginalSet> {
    let mut listed = OriginalSet::with_room(alloc, line.len(), keys)?;
    for place in 2..line.len() {
        let key = Key::new(&line.original(alloc, place)?)?;
        let _ = listed.insert(key)?;
    }
    Ok(listed)
}

/// Grants the oldest wish that waits.
fn grant(book: &mut Wishes, said: &mut String) -> Result<()> {
    match book.grant()? {
        Some(original) => writeln!(said, "{}", text_of(&original)?)?,
        None => writeln!(said, "None")?,
    }
    Ok(())
}

/// Performs a command about wishes as readers make them. Returns whether the line has one.
fn perform_wish(alloc: Global, book: &mut Wishes, line: &Line, said: &mut String) -> Result<bool> {
    match line.word() {
        "wish" => {
            let decision = book.wish(line.asked(alloc, 2)?, line.flag(3)?, line.number(4)?)?;
            writeln!(said, "{decision:?}")?;
        }
        "settled" => {
            let is_settled = book.is_settled(&line.original(alloc, 2)?, line.number(3)?)?;
            writeln!(said, "{is_settled}")?;
        }
        "wished" => writeln!(said, "{}", book.is_wished(&line.original(alloc, 2)?))?,
        _ => return Ok(false),
    }
    Ok(true)
}

/// Performs a command about wishes that stand in the book. Returns whether the line has one.
fn perform_queue(alloc: Global, book: &mut Wishes, line: &Line, said: &mut String) -> Result<bool> {
    match line.word() {
        "grant" => grant(book, said)?,
        "back" => {
            book.put_back(&line.original(alloc, 2)?);
            writeln!(said, "done")?;
        }
        "note" => {
            let found = Found {
                is_shown: line.flag(3)?,
                is_whole: line.flag(4)?,
                second: line.number(5)?,
            };
            book.note(&line.original(alloc, 2)?, found)?;
            writeln!(said, "done")?;
        }
        "end" => {
            book.end(&line.original(alloc, 2)?, line.flag(3)?);
            writeln!(said, "done")?;
        }
        _ => return Ok(false),
    }
    Ok(true)
}

/// Performs a command about what a book is told, and what it counts. Returns whether the line has one.
fn perform_limit(
    alloc: Global,
    keys: RandomState,
    book: &mut Wishes,
    line: &Line,
    said: &mut String,
) -> Result<bool> {
    match line.word() {
        "listed" => {
            let _ = book.set_listed(listed(alloc, keys, line)?);
            writeln!(said, "done")?;
        }
        "room" => {
            book.set_room(line.place(2)?);
            writeln!(said, "done")?;
        }
        "turned_away" => writeln!(said, "{}", book.turned_away())?,
        "late" => writeln!(said, "{}", book.late())?,
        _ => return Ok(false),
    }
    Ok(true)
}

/// Performs a command about a book. Returns whether the line has one.
pub(crate) fn perform(
    alloc: Global,
    keys: RandomState,
    book: &mut Wishes,
    line: &Line,
    said: &mut String,
) -> Result<bool> {
    Ok(
        perform_wish(alloc, book, line, said)?
            || perform_queue(alloc, book, line, said)?
            || perform_limit(alloc, keys, book, line, said)?,
    )
}
