//! Which part is asked for, and where it stands.
ghost use Rattle.std.specs.Prelude.{◌≡◌, ◌++◌, ◌∷◌, codes, IfOk, IfSome, OnOk, Ok, option_copied};
ghost use Rattle.std.specs.Fmt.{decimal};
ghost use Rattle.hex.specs.Hex.{decode_of};
ghost use Rattle.delta_parts.specs.Asks.{cursor_of, place_of, cursor_path, target_of, Names};

use crate::place::Place;
use hex::FromHexError;
use memento_time::{ArchiveName, CleanFault, NoMemory, Original};
use replica_exchange::Cursor;
use std::alloc::{AllocError, Global};
use text_fields::{behind, read_decimal, split_once, write_decimal};

/// Which part of a delta is asked for.
#[derive(Debug, Drop)]
pub enum PartAsk {
    /// The first part of the delta from a cursor, or from none.
    First(Option<Cursor>),
    /// The part of the delta from a cursor that begins behind a place.
    Next(Cursor, Place),
}

impl PartAsk {
    /// From which cursor the delta goes.
    pub fn cursor(&self) -> Option<Cursor>
        ensures { result ≡ cursor_of self.now }
    {
        match self {
            PartAsk::First(cursor) => *cursor,
            PartAsk::Next(cursor, _) => Some(*cursor),
        }
    }

    /// Behind which place the part begins.
    pub fn behind(&self) -> Option<&Place>
        ensures { option_copied result ≡ place_of self.now }
    {
        match self {
            PartAsk::First(_) => None,
            PartAsk::Next(_, behind) => Some(behind),
        }
    }
}

/// Writes `/INCARNATION/NUMBER`.
fn write_cursor(out: &mut Vec<u8>, cursor: Cursor) -> Result<(), AllocError>
    ensures { OnOk result (out.new.items ≡ out.old.items ++ cursor_path cursor) }
{
    out.push(b'/')?;
    write_decimal(out, cursor.incarnation)?;
    out.push(b'/')?;
    write_decimal(out, cursor.number)
}

/// The target of the request for a part, under the base of a peer:
///
/// | Target | The part |
/// |---|---|
/// | `/part` | the first one, from no cursor |
/// | `/part/INCARNATION/NUMBER` | the first one, from this cursor |
/// | `/part/INCARNATION/NUMBER/ARCHIVE/HEX` | from this cursor, behind this key; HEX is the original's bytes |
pub fn write_target(alloc: Global, ask: &PartAsk) -> Result<Vec<u8>, NoMemory>
    ensures { IfOk result (λ target. target.items ≡ target_of ask.now) }
{
    let mut out = Vec::from_slice(alloc, b"/part")?;
    match ask {
        PartAsk::First(None) => {}
        PartAsk::First(Some(cursor)) => write_cursor(&mut out, *cursor)?,
        PartAsk::Next(cursor, place) => {
            write_cursor(&mut out, *cursor)?;
            let digits = hex::encode(alloc, place.original.as_bytes())?;
            out.push(b'/')?;
            out.extend_from_slice(place.archive.as_bytes())?;
            out.push(b'/')?;
            out.extend_from_slice(digits.as_bytes())?;
        }
    }
    Ok(out)
}

/// The cursor of two decimals.
fn cursor_at(incarnation: &[u8], number: &[u8]) -> Option<Cursor>
    ensures incarnation { IfSome result (λ c. incarnation.now ≡ decimal c.incarnation) }
    ensures number { IfSome result (λ c. number.now ≡ decimal c.number) }
{
    Some(Cursor {
        incarnation: read_decimal(incarnation)?,
        number: read_decimal(number)?,
    })
}

/// The original whose bytes these digits are.
fn original_of(alloc: Global, digits: &[u8]) -> Result<Option<Original>, NoMemory>
    ensures { IfOk result (λ it. IfSome it (λ original. decode_of digits.now ≡ Ok original)) }
{
    let bytes = match hex::decode(alloc, digits) {
        Ok(bytes) => bytes,
        Err(FromHexError::OutOfMemory) => return Err(NoMemory),
        Err(_) => return Ok(None),
    };
    match Original::new(alloc, bytes.as_slice()) {
        Ok(original) => Ok(Some(original)),
        Err(CleanFault::NoMemory) => Err(NoMemory),
        Err(CleanFault::NotClean) => Ok(None),
    }
}

/// The ask for the part from a cursor behind the place that stands in a path: an archive, a slash, and the original's
/// bytes in hex.
fn next_at(alloc: Global, cursor: Cursor, path: &[u8]) -> Result<Option<PartAsk>, NoMemory>
    ensures { IfOk result (λ it. IfSome it (Names (codes "/part" ++ (cursor_path cursor ++ 47 ∷ path.now)))) }
{
    let Some((name, digits)) = split_once(path, b'/') else {
        return Ok(None);
    };
    let Some(archive) = ArchiveName::new(name) else {
        return Ok(None);
    };
    match original_of(alloc, digits)? {
        Some(original) => Ok(Some(PartAsk::Next(cursor, Place { archive, original }))),
        None => Ok(None),
    }
}

/// The ask that stands behind `/part/`.
fn ask_at(alloc: Global, path: &[u8]) -> Result<Option<PartAsk>, NoMemory>
    ensures { IfOk result (λ it. IfSome it (Names (codes "/part" ++ 47 ∷ path.now))) }
{
    let Some((incarnation, rest)) = split_once(path, b'/') else {
        return Ok(None);
    };
    let Some((number, place)) = split_once(rest, b'/') else {
        return match cursor_at(incarnation, rest) {
            Some(cursor) => Ok(Some(PartAsk::First(Some(cursor)))),
            None => Ok(None),
        };
    };
    match cursor_at(incarnation, number) {
        Some(cursor) => next_at(alloc, cursor, place),
        None => Ok(None),
    }
}

/// Which part a target asks for; `None` if it asks for none.
pub fn read_target(alloc: Global, target: &[u8]) -> Result<Option<PartAsk>, NoMemory>
    ensures { IfOk result (λ it. IfSome it (Names target.now)) }
{
    let Some(path) = behind(b"/part", target) else {
        return Ok(None);
    };
    match path {
        [] => Ok(Some(PartAsk::First(None))),
        [b'/', path @ ..] => ask_at(alloc, path),
        _ => Ok(None),
    }
}
