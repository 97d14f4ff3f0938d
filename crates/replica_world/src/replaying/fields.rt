//! The lines of a script, the fields of a line, and the blocks and lines that follow it.
ghost use Rattle.std.specs.Prelude.{◌≡◌, ◌≤◌, IfOk, length};
ghost use Rattle.std.specs.Option.{option_map};
ghost use Rattle.std.specs.List.{list_all};
ghost use Rattle.replica_world.specs.Fields.{first_line, after_empty_lines, number_field, word_field, is_visible};
ghost use Rattle.replica_world.specs.Fields.{utf8_text};
ghost use Rattle.replica_world.specs.Fields.{block_of, line_of, lines_of};

use memento_time::{NoMemory, Octets};
use std::alloc::Global;
use text_fields::{next_field, next_line, read_decimal};

/// The most bytes of a line.
pub(crate) const LONGEST_LINE: usize = 65_536;

/// The most bytes of a block.
pub(crate) const LONGEST_BLOCK: u64 = 300_000_000;

/// The first line, and what follows it.
fn first_line(text: &[u8]) -> (&[u8], &[u8])
    ensures { (result.0.now, result.1.now) ≡ first_line text.now }
{
    match next_line(text) {
        Some(parts) => parts,
        None => (text, &text[text.len()..]),
    }
}

/// The text from its first non-empty line on.
pub(crate) fn after_empty_lines(text: &[u8]) -> &[u8]
    ensures text { result.now ≡ after_empty_lines text.now }
    ensures within { length result.now ≤ length text.now }
{
    let mut rest = text;
    while rest.starts_with(b"\n") {
        rest = rest.split_at(1).1;
    }
    rest
}

/// A decimal, and what follows the space after it.
pub(crate) fn number_field(text: &[u8]) -> Option<(u64, &[u8])>
    ensures { option_map (λ p. (p.0, p.1.now)) result ≡ number_field text.now }
{
    let (digits, rest) = next_field(text)?;
    Some((read_decimal(digits)?, rest))
}

/// A word of at least one byte, and what follows the space after it.
pub(crate) fn word_field(text: &[u8]) -> Option<(&[u8], &[u8])>
    ensures { option_map (λ p. (p.0.now, p.1.now)) result ≡ word_field text.now }
{
    let (word, rest) = next_field(text)?;
    if word.is_empty() {
        return None;
    }
    Some((word, rest))
}

fn is_visible(byte: u8) -> bool
    ensures { result ≡ is_visible byte }
{
    byte.is_ascii_graphic()
}

/// Whether each byte is a visible ASCII character.
pub(crate) fn are_visible(text: &[u8]) -> bool
    ensures { result ≡ list_all is_visible text.now }
{
    text.iter().all(|byte| is_visible(*byte))
}

/// The bytes as text.
pub(crate) fn utf8_text(bytes: &[u8]) -> Option<&str>
    ensures { option_map (λ text. text.now) result ≡ utf8_text bytes.now }
{
    str::from_utf8(bytes).ok()
}

/// A block of `len` bytes, and what follows it.
#[tactic(auto, unfolding(crate::specs::Fields::block_of))]
pub(crate) fn block(len: u64, text: &[u8]) -> Option<(&[u8], &[u8])>
    ensures { option_map (λ p. (p.0.now, p.1.now)) result ≡ block_of len text.now }
{
    if len > LONGEST_BLOCK || len > text.len() as u64 {
        return None;
    }
    let (block, after) = text.split_at(len as usize);
    match after {
        [] => Some((block, after)),
        [b'\n', rest @ ..] => Some((block, rest)),
        _ => None,
    }
}

/// The first line and what follows it. `None` if there is no line, or if it has more than 65,536 bytes.
#[tactic(auto, unfolding(crate::specs::Fields::line_of))]
pub(crate) fn line(text: &[u8]) -> Option<(&[u8], &[u8])>
    ensures { option_map (λ p. (p.0.now, p.1.now)) result ≡ line_of text.now }
{
    if text.is_empty() {
        return None;
    }
    let (line, rest) = first_line(text);
    if line.len() > LONGEST_LINE {
        return None;
    }
    Some((line, rest))
}

/// Copies of `count` lines, and what follows them.
pub(crate) fn lines(
    alloc: Global,
    count: u64,
    text: &[u8],
) -> Result<Option<(Vec<Octets>, &[u8])>, NoMemory>
    ensures { IfOk result (λ found. option_map (λ p. (p.0.items, p.1.now)) found ≡ lines_of count text.now) }
{
    let mut lines = Vec::new(alloc);
    let mut rest = text;
    for _ in 0..count {
        let Some((line, after)) = line(rest) else {
            return Ok(None);
        };
        lines.push(Octets::of(Vec::from_slice(alloc, line)?))?;
        rest = after;
    }
    Ok(Some((lines, rest)))
}
