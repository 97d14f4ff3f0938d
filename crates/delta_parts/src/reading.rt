//! Reading a part from its text.
ghost use Rattle.std.specs.Prelude.{IfOk, IfErr};
ghost use Rattle.replica_exchange.specs.Spelling.{Begins, Refuses};
ghost use Rattle.delta_parts.specs.PartText.{place, behind_word, head, IsPartText, IsPartCause};

use crate::part::Part;
use crate::place::Place;
use memento_time::ArchiveName;
use replica_exchange::{StateFault, cut, read_delta, read_original, skip};
use std::alloc::Global;

/// A place, or a hyphen for none, and the end of its line, and what follows.
fn read_place(alloc: Global, text: &[u8]) -> Result<(Option<Place>, &[u8]), StateFault>
    ensures found { IfOk result (λ read. Begins place text.now read.0 read.1.now) }
    ensures refused { IfErr result (λ fault. Refuses place text.now fault) }
{
    if let Ok(rest) = skip(text, b"-\n") {
        return Ok((None, rest));
    }
    let (name, line) = cut(text, b' ')?;
    let Some(archive) = ArchiveName::new(name) else {
        return Err(StateFault::NotState);
    };
    let (original, rest) = read_original(alloc, line)?;
    Ok((Some(Place { archive, original }), rest))
}

/// The line of a place, which begins with a word, and what follows.
fn read_place_line<'a>(
    alloc: Global,
    text: &'a [u8],
    word: &[u8],
) -> Result<(Option<Place>, &'a [u8]), StateFault>
    ensures found { IfOk result (λ read. Begins (behind_word word.now place) text.now read.0 read.1.now) }
    ensures refused { IfErr result (λ fault. Refuses (behind_word word.now place) text.now fault) }
{
    let line = skip(text, word)?;
    read_place(alloc, line)
}

/// Behind which place a part begins and until which one it goes.
#[derive(Debug, Drop)]
struct Head {
    behind: Option<Place>,
    until: Option<Place>,
}

/// A part's own lines, and what follows.
fn read_head(alloc: Global, text: &[u8]) -> Result<(Head, &[u8]), StateFault>
    ensures found { IfOk result (λ read. Begins head text.now (read.0.behind, read.0.until) read.1.now) }
    ensures refused { IfErr result (λ fault. Refuses head text.now fault) }
{
    let lines = skip(text, b"memento-part 1\n")?;
    let (behind, line) = read_place_line(alloc, lines, b"behind ")?;
    let (until, rest) = read_place_line(alloc, line, b"until ")?;
    Ok((Head { behind, until }, rest))
}

/// Reads the part whose text this is, whose entries are in either format. Takes time linear in the text. Nothing of the
/// text is kept.
///
/// `TooLong` if more than 268,435,456 bytes follow the part's own lines.
pub fn read_part(alloc: Global, text: &[u8]) -> Result<Part, StateFault>
    ensures found { IfOk result (λ part. IsPartText text.now part) }
    ensures cause { IfErr result (λ fault. IsPartCause fault text.now) }
{
    let (head, rest) = read_head(alloc, text)?;
    let delta = read_delta(alloc, rest)?;
    Ok(Part {
        delta,
        behind: head.behind,
        until: head.until,
    })
}
