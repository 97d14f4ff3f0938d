//! What is answered.
ghost use Rattle.std.specs.Prelude.{◌≡◌, IfOk};
ghost use Rattle.std.specs.Option.{option_copied};
ghost use Rattle.harvest_lattice.specs.Knowledge.{shown_of};
ghost use Rattle.timemap_formats.specs.Forms.{listing_text};
ghost use Rattle.timemap_formats.specs.Readback.{timemap_listing};
ghost use Rattle.single_questions.specs.Wants.{address_line, answer_text, chosen, timemap_in};

use crate::listings::listing_of;
use crate::wants::{TextForm, Want};
use memento_index::Index;
use memento_time::{Memento, Moment, NoMemory, Original};
use std::alloc::Global;
use timemap_formats::{Form, write_listing};
use timemap_writer::{Service, write_timemap};

/// A line with the memento's address, or an empty one.
fn address_line(alloc: Global, memento: Option<&Memento>) -> Result<Vec<u8>, NoMemory>
    ensures { IfOk result (λ text. text.items ≡ address_line (option_copied memento.entry)) }
{
    let mut text = match memento {
        Some(memento) => Vec::from_slice(alloc, memento.uri.as_bytes())?,
        None => Vec::new(alloc),
    };
    text.extend_from_slice(b"\n")?;
    Ok(text)
}

/// The TimeMap in another form than link-format.
fn other_text(
    alloc: Global,
    service: &Service,
    form: Form,
    original: &Original,
    mementos: &[Memento],
) -> Result<Vec<u8>, NoMemory>
    ensures { IfOk result (λ text. text.items
        ≡ listing_text form (timemap_listing service.now original.now mementos.now)) }
{
    let listing = listing_of(alloc, service, original, mementos)?;
    write_listing(alloc, form, &listing)
}

/// The TimeMap in this form.
fn timemap_in(
    alloc: Global,
    service: &Service,
    form: TextForm,
    original: &Original,
    mementos: &[Memento],
) -> Result<Vec<u8>, NoMemory>
    ensures { IfOk result (λ text. text.items ≡ timemap_in form service.now original.now mementos.now) }
{
    match form {
        TextForm::Link => write_timemap(alloc, service, original, mementos),
        TextForm::Json => {
            let mut text = other_text(alloc, service, Form::Json, original, mementos)?;
            text.extend_from_slice(b"\n")?;
            Ok(text)
        }
        TextForm::Cdxj => other_text(alloc, service, Form::Cdxj, original, mementos),
    }
}

/// The memento that a TimeGate names.
fn chosen<'a>(index: &'a Index, original: &Original, asked: Option<Moment>) -> Option<&'a Memento>
    ensures { option_copied result ≡ chosen asked (shown_of index.now original.now) }
{
    match asked {
        Some(moment) => index.nearest(original, moment),
        None => index.latest(original),
    }
}

/// What is answered of an original, by what the index shows of it: a TimeMap also if that is nothing, and of a TimeGate
/// a line with an address, which is empty if there is no memento. TimeMaps name themselves below the service's base.
#[tactic(auto, unfolding(crate::specs::Wants::answer_text))]
pub fn write_answer(
    alloc: Global,
    service: &Service,
    want: Want,
    original: &Original,
    index: &Index,
) -> Result<Vec<u8>, NoMemory>
    ensures { IfOk result (λ text. text.items
        ≡ answer_text want service.now original.now (shown_of index.now original.now)) }
{
    match want {
        Want::TimeMap(form) => timemap_in(alloc, service, form, original, index.list(original)),
        Want::TimeGate(asked) => address_line(alloc, chosen(index, original, asked)),
    }
}
