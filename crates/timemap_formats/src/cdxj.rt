//! Listings in CDXJ.
ghost use Rattle.std.specs.Prelude.{◌≡◌, ◌++◌, IfOk, OnOk, codes, flat_map};
ghost use Rattle.json.specs.Print.{quoted};
ghost use Rattle.timemap_writer.specs.TimeMap.{memento_relations};
ghost use Rattle.timemap_formats.specs.Cdxj.{period_text, row_line, with_quoted, forms_line, name_lines};
ghost use Rattle.timemap_formats.specs.Cdxj.{original_lines, head_lines, cdxj_text};
ghost use Rattle.timemap_formats.specs.declared.listing.Row.TheVariants.{OfMemento, OfPage};

use crate::addresses::{form_address, timegate_at};
use crate::dates::digits;
use crate::listing::{Ends, Head, Listing, PageLink, Row};
use json::{Pretty, Token};
use memento_time::{Clean, DateWriter, Memento, NoMemory};
use std::alloc::Global;

/// Appends a text of JSON between two pieces.
fn push_quoted(
    out: &mut Vec<u8>,
    alloc: Global,
    before: &[u8],
    text: &str,
    after: &[u8],
) -> Result<(), NoMemory>
    ensures { OnOk result (out.new.items ≡ out.old.items ++ with_quoted before.now text.now after.now) }
{
    let quoted = quoted(alloc, text)?;
    out.extend_from_slice(before)?;
    out.extend_from_slice(&quoted)?;
    out.extend_from_slice(after)?;
    Ok(())
}

/// The text in quotes, with what JSON escapes.
fn quoted(alloc: Global, text: &str) -> Result<Vec<u8>, NoMemory>
    ensures { IfOk result (λ quoted_text. quoted_text.items ≡ quoted text.now) }
{
    let mut out = Pretty::new(alloc);
    out.token(Token::String(text))?;
    Ok(out.into_inner())
}

/// The text between a memento's address and its datetime.
fn before_datetime(ends: Ends) -> &'static [u8]
    ensures { result.now ≡ codes ", \"rel\": \"" ++ memento_relations ends.first ends.last ++ codes "\", \"datetime\": \"" }
{
    match (ends.first, ends.last) {
        (true, true) => b", \"rel\": \"first last memento\", \"datetime\": \"",
        (true, false) => b", \"rel\": \"first memento\", \"datetime\": \"",
        (false, true) => b", \"rel\": \"last memento\", \"datetime\": \"",
        (false, false) => b", \"rel\": \"memento\", \"datetime\": \"",
    }
}

fn push_memento(
    out: &mut Vec<u8>,
    alloc: Global,
    dates: &mut DateWriter,
    base: &Clean,
    ends: Ends,
    memento: &Memento,
) -> Result<(), NoMemory>
    ensures { OnOk result (out.new.items ≡ out.old.items ++ row_line base.now (OfMemento ends memento.now)) }
{
    out.extend_from_slice(&digits(dates, memento.at))?;
    let rel = before_datetime(ends);
    push_quoted(out, alloc, b" {\"uri\": ", memento.uri.as_str(), rel)?;
    out.extend_from_slice(&dates.write(memento.at))?;
    out.extend_from_slice(b"\"}\n")?;
    Ok(())
}

/// Appends the period of a page, up to the end of its line.
fn push_period(out: &mut Vec<u8>, dates: &mut DateWriter, page: &PageLink) -> Result<(), NoMemory>
    ensures { OnOk result (out.new.items ≡ out.old.items ++ period_text page.now) }
{
    out.extend_from_slice(&dates.write(page.from))?;
    out.extend_from_slice(b"\", \"until\": \"")?;
    out.extend_from_slice(&dates.write(page.until))?;
    out.extend_from_slice(b"\"}\n")?;
    Ok(())
}

fn push_page(
    out: &mut Vec<u8>,
    alloc: Global,
    dates: &mut DateWriter,
    base: &Clean,
    page: &PageLink,
) -> Result<(), NoMemory>
    ensures { OnOk result (out.new.items ≡ out.old.items ++ row_line base.now (OfPage page.now)) }
{
    let address = form_address(alloc, base, "cdxj", &page.place)?;
    out.extend_from_slice(&digits(dates, page.from))?;
    let rel = b", \"rel\": \"timemap\", \"from\": \"";
    push_quoted(out, alloc, b" {\"uri\": ", address.as_str(), rel)?;
    push_period(out, dates, page)
}

fn push_row(
    out: &mut Vec<u8>,
    alloc: Global,
    dates: &mut DateWriter,
    base: &Clean,
    row: &Row,
) -> Result<(), NoMemory>
    ensures { OnOk result (out.new.items ≡ out.old.items ++ row_line base.now row.now) }
{
    match row {
        Row::OfMemento(ends, memento) => push_memento(out, alloc, dates, base, *ends, memento),
        Row::OfPage(page) => push_page(out, alloc, dates, base, page),
    }
}

fn push_rows(out: &mut Vec<u8>, alloc: Global, base: &Clean, rows: &[Row]) -> Result<(), NoMemory>
    ensures { OnOk result (out.new.items ≡ out.old.items ++ flat_map (row_line base.now) rows.now) }
{
    let mut dates = DateWriter::new();
    let mut left = rows;
    while let [row, rest @ ..] = left {
        push_row(out, alloc, &mut dates, base, row)?;
        left = rest;
    }
    Ok(())
}

/// Appends where the TimeMap stands in each form.
fn push_forms(out: &mut Vec<u8>, alloc: Global, head: &Head) -> Result<(), NoMemory>
    ensures { OnOk result (out.new.items ≡ out.old.items ++ forms_line head.now) }
{
    let link = form_address(alloc, &head.base, "link", &head.original)?;
    let json = form_address(alloc, &head.base, "json", &head.original)?;
    let cdxj = form_address(alloc, &head.base, "cdxj", &head.original)?;
    let first = b"!meta {\"timemap_uri\": {\"link_format\": ";
    push_quoted(out, alloc, first, link.as_str(), b", \"json_format\": ")?;
    push_quoted(out, alloc, b"", json.as_str(), b", \"cdxj_format\": ")?;
    push_quoted(out, alloc, b"", cdxj.as_str(), b"}}\n")
}

/// Appends the lines that say what the text is.
fn push_name(out: &mut Vec<u8>, alloc: Global, head: &Head) -> Result<(), NoMemory>
    ensures { OnOk result (out.new.items ≡ out.old.items ++ name_lines head.now) }
{
    let itself = form_address(alloc, &head.base, "cdxj", &head.place)?;
    out.extend_from_slice(b"!context [\"http://tools.ietf.org/html/rfc7089\"]\n")?;
    push_quoted(out, alloc, b"!id {\"uri\": ", itself.as_str(), b"}\n")?;
    out.extend_from_slice(b"!keys [\"memento_datetime_YYYYMMDDhhmmss\"]\n")?;
    Ok(())
}

/// Appends the lines of the original and its TimeGate.
fn push_original(out: &mut Vec<u8>, alloc: Global, head: &Head) -> Result<(), NoMemory>
    ensures { OnOk result (out.new.items ≡ out.old.items ++ original_lines head.now) }
{
    let timegate = timegate_at(alloc, head)?;
    let original = head.original.as_str();
    push_quoted(out, alloc, b"!meta {\"original_uri\": ", original, b"}\n")?;
    push_quoted(
        out,
        alloc,
        b"!meta {\"timegate_uri\": ",
        timegate.as_str(),
        b"}\n",
    )?;
    Ok(())
}

/// Appends the lines about the listing.
fn push_head(out: &mut Vec<u8>, alloc: Global, head: &Head) -> Result<(), NoMemory>
    ensures { OnOk result (out.new.items ≡ out.old.items ++ head_lines head.now) }
{
    push_name(out, alloc, head)?;
    push_original(out, alloc, head)?;
    push_forms(out, alloc, head)?;
    Ok(())
}

/// The listing in CDXJ.
#[tactic(auto, unfolding(crate::specs::Cdxj::cdxj_text))]
pub(crate) fn write_cdxj(alloc: Global, listing: &Listing) -> Result<Vec<u8>, NoMemory>
    ensures { IfOk result (λ text. text.items ≡ cdxj_text listing.now) }
{
    let mut text = Vec::new(alloc);
    push_head(&mut text, alloc, &listing.head)?;
    push_rows(
        &mut text,
        alloc,
        &listing.head.base,
        listing.rows.as_slice(),
    )?;
    Ok(text)
}
