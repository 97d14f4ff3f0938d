//! Tables of cases. A table is a text with a case in each line, and bars stand between the parts of a case: an array of
//! cases costs the prover far more.
use anyhow::{Context, Result, bail};
use std::alloc::Global;
use text_fields::read_decimal;

/// Tries each case of a table, and names the first that doesn't hold.
pub fn hold<F>(alloc: Global, table: &str, holds: F) -> Result<()>
where
    F: Fn(Global, &str) -> Result<bool>,
    requires { F.IsAlwaysCallable holds }
{
    let mut rest = table;
    for _ in 0..table.len() {
        let Some((case, more)) = rest.split_once('\n') else {
            break;
        };
        if !holds(alloc, case)? {
            bail!("not so: {case}");
        }
        rest = more;
    }
    if !rest.is_empty() {
        bail!("no line: {rest}");
    }
    Ok(())
}

/// Takes each line of a text on a state, one after the other, and names the first that doesn't hold.
pub fn follow<S, F>(state: &mut S, text: &str, takes: F) -> Result<()>
where
    F: Fn(&mut S, &str) -> Result<bool>,
    requires { F.IsAlwaysCallable takes }
{
    let mut rest = text;
    for _ in 0..text.len() {
        let Some((line, more)) = rest.split_once('\n') else {
            break;
        };
        if !takes(state, line)? {
            bail!("not so: {line}");
        }
        rest = more;
    }
    if !rest.is_empty() {
        bail!("no line: {rest}");
    }
    Ok(())
}

/// What stands before a case's first bar, and what stands behind it. A part that isn't there is empty.
pub fn halves(case: &str) -> (&str, &str) {
    case.split_once('|').unwrap_or((case, ""))
}

/// The number that a part is.
pub fn number(part: &str) -> Result<u64> {
    read_decimal(part.as_bytes()).context("a part is no number")
}

/// Whether a number is that of a part, which is `none` where there is none.
pub fn is_number(found: Option<u64>, wanted: &str) -> bool {
    match found {
        Some(number) => read_decimal(wanted.as_bytes()) == Some(number),
        None => is(b"none", wanted),
    }
}

/// Whether bytes are this text.
pub fn is(bytes: &[u8], text: &str) -> bool {
    bytes == text.as_bytes()
}

/// Whether two texts are the same.
pub fn are_same(one: &[u8], other: &[u8]) -> bool {
    one == other
}

/// A part in which `{piece*3}`, if there is one, stands for three pieces.
pub fn expanded(alloc: Global, part: &str) -> Result<Vec<u8>> {
    let Some((front, behind)) = part.split_once('{') else {
        return Ok(Vec::from_slice(alloc, part.as_bytes())?);
    };
    let Some((pieces, end)) = behind.split_once('}') else {
        bail!("a brace is open");
    };
    let Some((piece, times)) = pieces.split_once('*') else {
        bail!("no star");
    };
    repeated(alloc, front, piece, number(times)?, end)
}

/// `front`, then `piece` `times` times, then `end`.
fn repeated(alloc: Global, front: &str, piece: &str, times: u64, end: &str) -> Result<Vec<u8>> {
    let mut text = Vec::from_slice(alloc, front.as_bytes())?;
    for _ in 0..times {
        text.extend_from_slice(piece.as_bytes())?;
    }
    text.extend_from_slice(end.as_bytes())?;
    Ok(text)
}
