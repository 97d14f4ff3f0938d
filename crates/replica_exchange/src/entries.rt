//! The entries of a state, read from their lines in either format.
ghost use Rattle.std.specs.Prelude.{◌≡◌, ◌↔◌, ◌^◌, ◌<◌, ◌∷◌, [], codes, IsTrue, map as map_list, IfOk, IfErr};
ghost use Rattle.harvest_lattice.specs.Parts.{kept_with};
ghost use Rattle.harvest_lattice.specs.Rows.{row_entry};
ghost use Rattle.replica_exchange.specs.Spelling.{Begins, Adds, Refuses, RefusesWhole};
ghost use Rattle.replica_exchange.specs.Parts.{memento, many, set_of, whole_ended, head, old_head, part_head, part};
ghost use Rattle.replica_exchange.specs.Parts.{BeginsKept, new_entry, old_entry, entry, listing};

use crate::fault::StateFault;
use crate::fields::{cut, read_number, read_original, skip};
use crate::format::Format;
use harvest_lattice::{Entry, Part, Row};
use memento_sets::Mementos;
use memento_time::{ArchiveName, Memento, MementosBuilder, Moment, Original};
use std::alloc::Global;
use text_fields::read_decimal;

/// Adds the memento whose line comes first, and gives what follows. Its address is copied.
fn read_memento<'a>(mementos: &mut MementosBuilder, text: &'a [u8]) -> Result<&'a [u8], StateFault>
    ensures found { IfOk result (λ rest. Adds memento mementos.old mementos.new text.now rest.now) }
    ensures refused { IfErr result (λ fault. Refuses memento text.now fault) }
{
    let (second, rest) = read_number(text, b' ')?;
    let Some(at) = Moment::from_secs(second) else {
        return Err(StateFault::NotState);
    };
    let (uri, rest) = cut(rest, b'\n')?;
    mementos.push(at, uri)?;
    Ok(rest)
}

/// The mementos of `count` lines, and what follows. Reserves nothing for lines that may not come. The addresses are
/// copied into one buffer that holds nothing else, so that they don't keep the text alive.
fn read_mementos<'a>(
    alloc: Global,
    count: u64,
    text: &'a [u8],
) -> Result<(Vec<Memento>, &'a [u8]), StateFault>
    ensures found { IfOk result (λ read.
        Begins (many count memento) text.now read.0.items read.1.now) }
    ensures refused { IfErr result (λ fault. Refuses (many count memento) text.now fault) }
{
    let mut mementos = MementosBuilder::new(alloc);
    let mut rest = text;
    for _ in 0..count {
        rest = read_memento(&mut mementos, rest)?;
    }
    Ok((mementos.build(alloc)?, rest))
}

/// The mementos of `count` lines in order, each once, and what follows.
fn read_set<'a>(
    alloc: Global,
    count: u64,
    text: &'a [u8],
) -> Result<(Mementos, &'a [u8]), StateFault>
    ensures found { IfOk result (λ read. Begins (set_of count) text.now read.0 read.1.now) }
    ensures refused { IfErr result (λ fault. Refuses (set_of count) text.now fault) }
{
    let (mementos, rest) = read_mementos(alloc, count, text)?;
    match Mementos::of_sorted(mementos) {
        Some(set) => Ok((set, rest)),
        None => Err(StateFault::NotState),
    }
}

fn is_none(word: &[u8]) -> bool
    ensures { IsTrue result ↔ (word.now ≡ codes "-") }
{
    word == b"-".as_slice()
}

/// The whole revision, if there is one, and the space that ends it, and what follows.
fn read_whole(text: &[u8]) -> Result<(Option<u64>, &[u8]), StateFault>
    ensures found { IfOk result (λ read. Begins whole_ended text.now read.0 read.1.now) }
    ensures refused { IfErr result (λ fault. Refuses whole_ended text.now fault) }
{
    let (word, rest) = cut(text, b' ')?;
    if is_none(word) {
        return Ok((None, rest));
    }
    match read_decimal(word) {
        Some(revision) => Ok((Some(revision), rest)),
        None => Err(StateFault::NotState),
    }
}

/// An entry's line.
#[derive(Debug, Drop)]
struct Head {
    archive: ArchiveName,
    whole: Option<u64>,
    revisions: u64,
    original: Original,
}

fn read_head(alloc: Global, text: &[u8]) -> Result<(Head, &[u8]), StateFault>
    ensures found { IfOk result (λ read. let h = read.0 in
        Begins head text.now ((h.archive, h.original), (h.whole, h.revisions)) read.1.now) }
    ensures refused { IfErr result (λ fault. Refuses head text.now fault) }
{
    let rest = skip(text, b"entry ")?;
    let (name, rest) = cut(rest, b' ')?;
    let Some(archive) = ArchiveName::new(name) else {
        return Err(StateFault::NotState);
    };
    let (whole, rest) = read_whole(rest)?;
    let (revisions, rest) = read_number(rest, b' ')?;
    let (original, rest) = read_original(alloc, rest)?;
    let head = Head {
        archive,
        whole,
        revisions,
        original,
    };
    Ok((head, rest))
}

/// The line of a revision.
#[derive(Debug, Drop)]
struct PartHead {
    revision: u64,
    count: u64,
}

fn read_part_head(text: &[u8]) -> Result<(PartHead, &[u8]), StateFault>
    ensures found { IfOk result (λ read. Begins part_head text.now (read.0.revision, read.0.count) read.1.now) }
    ensures refused { IfErr result (λ fault. Refuses part_head text.now fault) }
{
    let rest = skip(text, b"at ")?;
    let (revision, rest) = read_number(rest, b' ')?;
    let (count, rest) = read_number(rest, b'\n')?;
    Ok((PartHead { revision, count }, rest))
}

/// The line of a revision and those of its mementos, and what follows.
fn read_part<'a>(alloc: Global, text: &'a [u8]) -> Result<(Part, &'a [u8]), StateFault>
    ensures found { IfOk result (λ read. Begins part text.now read.0 read.1.now) }
    ensures refused { IfErr result (λ fault. Refuses part text.now fault) }
{
    let (head, rest) = read_part_head(text)?;
    let (set, rest) = read_set(alloc, head.count, rest)?;
    let part = Part::new(head.revision, set)?;
    Ok((part, rest))
}

/// `count` revisions, and what follows. Reserves nothing for revisions that may not come.
fn read_parts<'a>(
    alloc: Global,
    count: u64,
    text: &'a [u8],
) -> Result<(Vec<Part>, &'a [u8]), StateFault>
    ensures found { IfOk result (λ read. Begins (many count part) text.now read.0.items read.1.now) }
    ensures refused { IfErr result (λ fault. Refuses (many count part) text.now fault) }
{
    let mut parts = Vec::new(alloc);
    let mut rest = text;
    for _ in 0..count {
        let (part, after) = read_part(alloc, rest)?;
        parts.push(part)?;
        rest = after;
    }
    Ok((parts, rest))
}

/// The entry of one revision. `None` if there is a whole revision and it is a different one.
fn entry_of_one(whole: Option<u64>, part: Part) -> Option<Entry>
    ensures { result ≡ kept_with whole (part ∷ []) }
{
    let Some(whole) = whole else {
        return Some(Entry::of_part(false, part));
    };
    if whole != part.revision() {
        return None;
    }
    Some(Entry::of_part(true, part))
}

/// The entry that `count` revisions make with this whole one, if they make any, and what follows. Makes no list for a
/// single revision.
fn read_kept<'a>(
    alloc: Global,
    whole: Option<u64>,
    count: u64,
    text: &'a [u8],
) -> Result<(Option<Entry>, &'a [u8]), StateFault>
    ensures found { IfOk result (λ read. BeginsKept whole count text.now read.0 read.1.now) }
    ensures refused { IfErr result (λ fault. Refuses (many count part) text.now fault) }
{
    if count == 1 {
        let (part, rest) = read_part(alloc, text)?;
        return Ok((entry_of_one(whole, part), rest));
    }
    let (parts, rest) = read_parts(alloc, count, text)?;
    let entry = Entry::with_parts(alloc, whole, parts)?;
    Ok((entry, rest))
}

/// An entry of format 2, and what follows.
fn read_new_entry<'a>(alloc: Global, text: &'a [u8]) -> Result<(Row, &'a [u8]), StateFault>
    ensures found { IfOk result (λ read. Begins new_entry text.now (row_entry read.0) read.1.now) }
    ensures refused { IfErr result (λ fault. Refuses new_entry text.now fault) }
{
    let (head, rest) = read_head(alloc, text)?;
    let (entry, rest) = read_kept(alloc, head.whole, head.revisions, rest)?;
    let Some(entry) = entry else {
        return Err(StateFault::NotState);
    };
    let row = Row {
        archive: head.archive,
        original: head.original,
        entry,
    };
    Ok((row, rest))
}

/// An entry's line in format 1.
#[derive(Debug, Drop)]
struct OldHead {
    archive: ArchiveName,
    revision: u64,
    count: u64,
    original: Original,
}

fn read_old_head(alloc: Global, text: &[u8]) -> Result<(OldHead, &[u8]), StateFault>
    ensures found { IfOk result (λ read. let h = read.0 in
        Begins old_head text.now ((h.archive, h.original), (h.revision, h.count)) read.1.now) }
    ensures refused { IfErr result (λ fault. Refuses old_head text.now fault) }
{
    let rest = skip(text, b"entry ")?;
    let (name, rest) = cut(rest, b' ')?;
    let Some(archive) = ArchiveName::new(name) else {
        return Err(StateFault::NotState);
    };
    let (revision, rest) = read_number(rest, b' ')?;
    let (count, rest) = read_number(rest, b' ')?;
    let (original, rest) = read_original(alloc, rest)?;
    let head = OldHead {
        archive,
        revision,
        count,
        original,
    };
    Ok((head, rest))
}

/// An entry of format 1, and what follows.
fn read_old_entry<'a>(alloc: Global, text: &'a [u8]) -> Result<(Row, &'a [u8]), StateFault>
    ensures found { IfOk result (λ read. Begins old_entry text.now (row_entry read.0) read.1.now) }
    ensures refused { IfErr result (λ fault. Refuses old_entry text.now fault) }
{
    let (head, rest) = read_old_head(alloc, text)?;
    let (set, rest) = read_set(alloc, head.count, rest)?;
    let entry = Entry::of_part(true, Part::new(head.revision, set)?);
    let row = Row {
        archive: head.archive,
        original: head.original,
        entry,
    };
    Ok((row, rest))
}

/// An entry, and what follows.
fn read_entry<'a>(
    alloc: Global,
    format: Format,
    text: &'a [u8],
) -> Result<(Row, &'a [u8]), StateFault>
    ensures found { IfOk result (λ read. Begins (entry format) text.now (row_entry read.0) read.1.now) }
    ensures refused { IfErr result (λ fault. Refuses (entry format) text.now fault) }
{
    match format {
        Format::One => read_old_entry(alloc, text),
        Format::Two => read_new_entry(alloc, text),
    }
}

/// `count` entries, and what follows. Reserves nothing for entries that may not come.
fn read_entries<'a>(
    alloc: Global,
    format: Format,
    count: u64,
    text: &'a [u8],
) -> Result<(Vec<Row>, &'a [u8]), StateFault>
    ensures found { IfOk result (λ read.
        Begins (many count (entry format)) text.now (map_list row_entry read.0.items) read.1.now) }
    ensures refused { IfErr result (λ fault. Refuses (many count (entry format)) text.now fault) }
{
    let mut rows = Vec::new(alloc);
    let mut rest = text;
    for _ in 0..count {
        let (row, after) = read_entry(alloc, format, rest)?;
        rows.push(row)?;
        rest = after;
    }
    Ok((rows, rest))
}

fn is_end(text: &[u8]) -> bool
    ensures { IsTrue result ↔ (text.now ≡ codes "end\n") }
{
    text == b"end\n".as_slice()
}

/// The entries from `entries N` to `end`, which nothing may follow.
pub(crate) fn read_listing(
    alloc: Global,
    format: Format,
    text: &[u8],
) -> Result<Vec<Row>, StateFault>
    ensures found { IfOk result (λ rows.
        Begins (listing format) text.now (map_list row_entry rows.items) []) }
    ensures refused { IfErr result (λ fault. RefusesWhole (listing format) text.now fault) }
{
    let rest = skip(text, b"entries ")?;
    let (count, rest) = read_number(rest, b'\n')?;
    let (rows, rest) = read_entries(alloc, format, count, rest)?;
    if !is_end(rest) {
        return Err(StateFault::NotState);
    }
    Ok(rows)
}
