//! Listings in JSON.
ghost use Rattle.std.specs.Prelude.{◌≡◌, ◌++◌, ◌∷◌, [], IfOk, OnOk, codes};
ghost use Rattle.std.specs.Option.{option_copied};
ghost use Rattle.json.specs.Token.{begin_object, key, string};
ghost use Rattle.json.specs.Json.{Items, Members};
ghost use Rattle.json.specs.Tree.{json_tokens, items_tokens, members_tokens};
ghost use Rattle.memento_time.specs.Text.{IsClean};
ghost use Rattle.timemap_formats.specs.Dates as spec;
ghost use Rattle.timemap_formats.specs.Json.{memento_json, page_json, memento_item, memento_items, page_item, page_items};
ghost use Rattle.timemap_formats.specs.Json.{first_of, last_of, memento_member, is_index, mementos_json, listed_member};
ghost use Rattle.timemap_formats.specs.Addresses.{timemap_at, itself_at};
ghost use Rattle.timemap_formats.specs.Json.{forms_json, last_members, json_of, json_text};

use crate::addresses::{form_address, timegate_at};
use crate::dates::rfc3339;
use crate::listing::{Head, Listing, PageLink, Row};
use json::{Pretty, Token};
use memento_time::{Clean, DateWriter, Memento, Moment, NoMemory};
use std::alloc::{AllocError, Global};
use std::str;

/// Appends a member whose value is a text.
fn push_text(out: &mut Pretty, name: &str, text: &str) -> Result<(), AllocError>
    ensures { OnOk result (out.new ≡ out.old ++ key name.now ∷ string text.now ∷ []) }
{
    out.token(Token::Key(name))?;
    out.token(Token::String(text))
}

/// A clean text, as a `str`.
fn as_str(text: &[u8]) -> &str
    requires { IsClean text.now }
    ensures { result.now ≡ text.now }
{
    match str::from_utf8(text) {
        Ok(text) => text,
        Err(_) => unreachable!(),
    }
}

/// Appends a member whose value is a datetime.
fn push_date(
    out: &mut Pretty,
    dates: &mut DateWriter,
    name: &str,
    moment: Moment,
) -> Result<(), AllocError>
    ensures { OnOk result (out.new ≡ out.old ++ key name.now ∷ string (spec.rfc3339 moment) ∷ []) }
{
    push_text(out, name, as_str(&rfc3339(dates, moment)))
}

fn push_memento(
    out: &mut Pretty,
    dates: &mut DateWriter,
    memento: &Memento,
) -> Result<(), AllocError>
    ensures { OnOk result (out.new ≡ out.old ++ json_tokens (memento_json memento.now)) }
{
    out.token(Token::BeginObject)?;
    push_date(out, dates, "datetime", memento.at)?;
    push_text(out, "uri", memento.uri.as_str())?;
    out.token(Token::EndObject)?;
    Ok(())
}

fn push_page(
    out: &mut Pretty,
    alloc: Global,
    dates: &mut DateWriter,
    base: &Clean,
    page: &PageLink,
) -> Result<(), NoMemory>
    ensures { OnOk result (out.new ≡ out.old ++ json_tokens (page_json base.now page.now)) }
{
    let address = form_address(alloc, base, "json", &page.place)?;
    out.token(Token::BeginObject)?;
    push_text(out, "uri", address.as_str())?;
    push_date(out, dates, "from", page.from)?;
    push_date(out, dates, "until", page.until)?;
    out.token(Token::EndObject)?;
    Ok(())
}

/// Appends the row's memento, if it is one.
fn push_memento_item(out: &mut Pretty, dates: &mut DateWriter, row: &Row) -> Result<(), AllocError>
    ensures { OnOk result ((more : Items) → out.new ++ items_tokens more
        ≡ out.old ++ items_tokens (memento_item row.now more)) }
{
    match row {
        Row::OfMemento(_, memento) => push_memento(out, dates, memento),
        Row::OfPage(_) => Ok(()),
    }
}

/// Appends the mementos of the rows, and ends the array.
fn push_mementos(out: &mut Pretty, dates: &mut DateWriter, rows: &[Row]) -> Result<(), AllocError>
    ensures { OnOk result (out.new ≡ out.old ++ items_tokens (memento_items rows.now)) }
{
    let mut left = rows;
    while let [row, rest @ ..] = left {
        push_memento_item(out, dates, row)?;
        left = rest;
    }
    out.token(Token::EndArray)
}

/// Appends the row's page, if it is one.
fn push_page_item(
    out: &mut Pretty,
    alloc: Global,
    dates: &mut DateWriter,
    base: &Clean,
    row: &Row,
) -> Result<(), NoMemory>
    ensures { OnOk result ((more : Items) → out.new ++ items_tokens more
        ≡ out.old ++ items_tokens (page_item base.now row.now more)) }
{
    match row {
        Row::OfMemento(_, _) => Ok(()),
        Row::OfPage(page) => push_page(out, alloc, dates, base, page),
    }
}

/// Appends the pages of the rows, and ends the array.
fn push_pages(
    out: &mut Pretty,
    alloc: Global,
    dates: &mut DateWriter,
    base: &Clean,
    rows: &[Row],
) -> Result<(), NoMemory>
    ensures { OnOk result (out.new ≡ out.old ++ items_tokens (page_items base.now rows.now)) }
{
    let mut left = rows;
    while let [row, rest @ ..] = left {
        push_page_item(out, alloc, dates, base, row)?;
        left = rest;
    }
    out.token(Token::EndArray)?;
    Ok(())
}

/// The first of all mementos, if the rows begin with it.
fn first_of(rows: &[Row]) -> Option<&Memento>
    ensures { option_copied result ≡ first_of rows.now }
{
    match rows.first() {
        Some(Row::OfMemento(ends, memento)) if ends.first => Some(memento),
        _ => None,
    }
}

/// The last of all mementos, if the rows end with it.
fn last_of(rows: &[Row]) -> Option<&Memento>
    ensures { option_copied result ≡ last_of rows.now }
{
    match rows.last() {
        Some(Row::OfMemento(ends, memento)) if ends.last => Some(memento),
        _ => None,
    }
}

/// Appends a member with the memento, if there is one.
fn push_if_any(
    out: &mut Pretty,
    dates: &mut DateWriter,
    name: &str,
    memento: Option<&Memento>,
) -> Result<(), AllocError>
    ensures { OnOk result ((more : Members) → out.new ++ members_tokens more
        ≡ out.old ++ members_tokens (memento_member name.now (option_copied memento.entry) more)) }
{
    let Some(memento) = memento else {
        return Ok(());
    };
    out.token(Token::Key(name))?;
    push_memento(out, dates, memento)
}

/// Whether the rows are those of an index.
fn is_index(rows: &[Row]) -> bool
    ensures { result ≡ is_index rows.now }
{
    matches!(rows.first(), Some(Row::OfPage(_)))
}

/// Appends the mementos of the rows, with the first and the last of all.
fn push_mementos_object(
    out: &mut Pretty,
    dates: &mut DateWriter,
    rows: &[Row],
) -> Result<(), AllocError>
    ensures { OnOk result (out.new ≡ out.old ++ json_tokens (mementos_json rows.now)) }
{
    out.token(Token::BeginObject)?;
    out.token(Token::Key("list"))?;
    out.token(Token::BeginArray)?;
    push_mementos(out, dates, rows)?;
    push_if_any(out, dates, "first", first_of(rows))?;
    push_if_any(out, dates, "last", last_of(rows))?;
    out.token(Token::EndObject)
}

/// Appends the member with what the rows list.
fn push_listed(
    out: &mut Pretty,
    alloc: Global,
    dates: &mut DateWriter,
    base: &Clean,
    rows: &[Row],
) -> Result<(), NoMemory>
    ensures { OnOk result ((more : Members) → out.new ++ members_tokens more
        ≡ out.old ++ members_tokens (listed_member base.now rows.now more)) }
{
    if is_index(rows) {
        out.token(Token::Key("pages"))?;
        out.token(Token::BeginArray)?;
        return push_pages(out, alloc, dates, base, rows);
    }
    out.token(Token::Key("mementos"))?;
    push_mementos_object(out, dates, rows)?;
    Ok(())
}

/// Appends a member with the address of the TimeMap in a form.
fn push_form(
    out: &mut Pretty,
    alloc: Global,
    name: &str,
    form: &str,
    head: &Head,
) -> Result<(), NoMemory>
    ensures { OnOk result (out.new ≡ out.old ++ key name.now ∷ string (timemap_at form.now head.now) ∷ []) }
{
    let address = form_address(alloc, &head.base, form, &head.original)?;
    push_text(out, name, address.as_str())?;
    Ok(())
}

/// Appends where the TimeMap stands in each form.
fn push_forms(out: &mut Pretty, alloc: Global, head: &Head) -> Result<(), NoMemory>
    ensures { OnOk result (out.new ≡ out.old ++ json_tokens (forms_json head.now)) }
{
    out.token(Token::BeginObject)?;
    push_form(out, alloc, "link_format", "link", head)?;
    push_form(out, alloc, "json_format", "json", head)?;
    push_form(out, alloc, "cdxj_format", "cdxj", head)?;
    out.token(Token::EndObject)?;
    Ok(())
}

/// Appends the members behind what the rows list, and ends the object.
fn push_last(out: &mut Pretty, alloc: Global, head: &Head) -> Result<(), NoMemory>
    ensures { OnOk result (out.new ≡ out.old ++ members_tokens (last_members head.now)) }
{
    let timegate = timegate_at(alloc, head)?;
    out.token(Token::Key("timemap_uri"))?;
    push_forms(out, alloc, head)?;
    push_text(out, "timegate_uri", timegate.as_str())?;
    out.token(Token::EndObject)?;
    Ok(())
}

/// Begins the object, with the members before what the rows list.
fn push_first(out: &mut Pretty, alloc: Global, head: &Head) -> Result<(), NoMemory>
    ensures { OnOk result (out.new ≡ out.old ++ begin_object ∷ key (codes "original_uri") ∷ string head.now.original
        ∷ key (codes "self") ∷ string (itself_at (codes "json") head.now) ∷ []) }
{
    let itself = form_address(alloc, &head.base, "json", &head.place)?;
    out.token(Token::BeginObject)?;
    push_text(out, "original_uri", head.original.as_str())?;
    push_text(out, "self", itself.as_str())?;
    Ok(())
}

/// Appends the listing.
fn push_listing(out: &mut Pretty, alloc: Global, listing: &Listing) -> Result<(), NoMemory>
    ensures { OnOk result (out.new ≡ out.old ++ json_tokens (json_of listing.now)) }
{
    let mut dates = DateWriter::new();
    let rows = listing.rows.as_slice();
    push_first(out, alloc, &listing.head)?;
    push_listed(out, alloc, &mut dates, &listing.head.base, rows)?;
    push_last(out, alloc, &listing.head)?;
    Ok(())
}

/// The listing in JSON.
#[tactic(auto, unfolding(crate::specs::Json::json_text))]
pub(crate) fn write_json(alloc: Global, listing: &Listing) -> Result<Vec<u8>, NoMemory>
    ensures { IfOk result (λ text. text.items ≡ json_text listing.now) }
{
    let mut out = Pretty::new(alloc);
    push_listing(&mut out, alloc, listing)?;
    Ok(out.into_inner())
}
