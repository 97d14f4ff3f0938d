//! Calls over texts, links, URLs, pages and TimeMaps.
use crate::makers::{FIRST_DAY, mementos, moment, original, service};
use anyhow::Result;
use link_format::{
    LinkFault, LinkReader, is_name, is_target, is_value, read_links, write_param,
    write_plain_param, write_target,
};
use memento_time::{Clean, MementosBuilder, Octets, Original};
use refused_calls::{Change, Tried, insist, share};
use std::alloc::Global;
use std::sync::Arc;
use text_fields::write_decimal;
use timegate::original_at;
use timemap_reader::{read_original, read_page};
use timemap_writer::{Service, pages, write_gate_links, write_index, write_page, write_timemap};
use url_texts::{join_url, read_url};

const ROOT: &[u8] = b"http://a.example/";

const URI: &[u8] = b"http://m.example/1";

const BASE: &str = "http://arc.example/list";

const PAGE: &[u8] =
    b"</1>;rel=memento;datetime=\"Sat, 01 Jan 2000 00:00:00 GMT\",</p2>;rel=timemap,</\xC3\xA9>;title=\"a\\\"b\"";

/// A link with a value that has to be unescaped.
const LINK: &[u8] = b"</1>;rel=\"a\\\"b\"";

const NAME: &[u8] = b"rel";

/// What a link has of parameters that are too many: it is only counted once the whole text is read.
const PARAM: &[u8] = b";a";

/// Calls that read one text.
#[derive(Clone, Copy, Debug)]
enum Reading {
    CleanNew,
    OriginalNew,
    ReadLinks,
    ReadUrl,
    JoinUrl,
    ReadOriginal,
    OriginalAt,
    ReadPage,
    ServiceNew,
}

const READINGS: [Reading; 9] = [
    Reading::CleanNew,
    Reading::OriginalNew,
    Reading::ReadLinks,
    Reading::ReadUrl,
    Reading::JoinUrl,
    Reading::ReadOriginal,
    Reading::OriginalAt,
    Reading::ReadPage,
    Reading::ServiceNew,
];

fn read(alloc: Global, call: Reading) -> Option<Tried> {
    let is_answered = match call {
        Reading::CleanNew => Clean::new(alloc, URI).is_ok(),
        Reading::OriginalNew => Original::new(alloc, ROOT).is_ok(),
        Reading::ReadLinks => read_links(alloc, PAGE).is_ok(),
        Reading::ReadUrl => read_url(alloc, BASE).is_ok(),
        Reading::JoinUrl => {
            let base = read_url(alloc, BASE).ok()??;
            join_url(&base, "/1").is_ok()
        }
        Reading::ReadOriginal => read_original(alloc, "HTTP://A.Example/\u{e9}#x").is_ok(),
        Reading::OriginalAt => matches!(original_at(alloc, ROOT), Ok(Some(_))),
        Reading::ReadPage => read_page(alloc, BASE, PAGE).is_ok(),
        Reading::ServiceNew => Service::new(alloc, "HTTP://Agg.Example/").is_ok(),
    };
    Some(Tried::of(is_answered))
}

/// Calls on a link that was read.
#[derive(Clone, Copy, Debug)]
enum OnLink {
    LinksValue,
    LinkRefValue,
    LinkRefValueRef,
    LinkRefRelAndDatetime,
}

const ON_LINKS: [OnLink; 4] = [
    OnLink::LinksValue,
    OnLink::LinkRefValue,
    OnLink::LinkRefValueRef,
    OnLink::LinkRefRelAndDatetime,
];

fn read_link(alloc: Global, call: OnLink) -> Option<Tried> {
    let links = read_links(alloc, LINK).ok()?;
    if links.len() == 0 {
        return None;
    }
    let link = links.link(0);
    let is_answered = match call {
        OnLink::LinksValue => links.value(0, NAME).is_ok(),
        OnLink::LinkRefValue => link.value(NAME).is_ok(),
        OnLink::LinkRefValueRef => link.value_ref(NAME).is_ok(),
        OnLink::LinkRefRelAndDatetime => link.rel_and_datetime().is_ok(),
    };
    Some(Tried::of(is_answered))
}

/// Calls that write at the end of a text.
#[derive(Clone, Copy, Debug)]
enum Writing {
    WriteTarget,
    WriteParam,
    WritePlainParam,
    WriteDecimal,
}

const WRITINGS: [Writing; 4] = [
    Writing::WriteTarget,
    Writing::WriteParam,
    Writing::WritePlainParam,
    Writing::WriteDecimal,
];

fn write(text: &mut Vec<u8>, call: Writing) -> bool {
    match call {
        Writing::WriteTarget => is_target(URI) && write_target(text, URI).is_ok(),
        Writing::WriteParam => {
            is_name(NAME) && is_value(URI) && write_param(text, NAME, URI).is_ok()
        }
        Writing::WritePlainParam => is_name(NAME) && write_plain_param(text, NAME, b"1").is_ok(),
        Writing::WriteDecimal => write_decimal(text, FIRST_DAY).is_ok(),
    }
}

fn try_writing(alloc: Global, call: Writing) -> Option<Tried> {
    let mut text = Vec::from_slice(alloc, b"<").ok()?;
    let is_answered = write(&mut text, call);
    let is_as_before = text.as_slice() == b"<".as_slice();
    let is_repeated = !is_answered && write(&mut text, call);
    Some(Tried::of_change(Change {
        is_answered,
        is_as_before,
        is_repeated,
    }))
}

/// Calls on what reads or gathers step by step.
#[derive(Clone, Copy, Debug)]
enum Stepping {
    LinkReaderRead,
    MementosBuilderPush,
    MementosBuilderPushCopy,
    MementosBuilderBuild,
}

/// A reader that comes to a link of too many parameters has the whole text read, and tells the same fault again.
fn read_crowded(alloc: Global) -> Option<Tried> {
    let mut text = Vec::from_slice(alloc, b"<>").ok()?;
    for _ in 0..33 {
        text.extend_from_slice(PARAM).ok()?;
    }
    let mut reader = LinkReader::new(alloc, &text);
    let is_answered = matches!(reader.read(), Err(LinkFault::TooManyParams));
    let is_repeated = matches!(reader.read(), Err(LinkFault::TooManyParams));
    Some(Tried::of_change(Change {
        is_answered,
        is_as_before: is_repeated,
        is_repeated,
    }))
}

/// Where adding a memento is refused the list has only the one before.
fn push(alloc: Global) -> Option<Tried> {
    let at = moment(FIRST_DAY).ok()?;
    let mut builder = MementosBuilder::new(alloc);
    builder.push(at, URI).ok()?;
    let is_answered = builder.push(at, ROOT).is_ok();
    let is_repeated = !is_answered && builder.push(at, ROOT).is_ok();
    let list = builder.build(alloc).ok()?;
    Some(Tried::of_change(Change {
        is_answered,
        is_as_before: list.len() == 2,
        is_repeated,
    }))
}

/// The same, where what is added is a copy.
fn push_copy(alloc: Global) -> Option<Tried> {
    let list = mementos(alloc, FIRST_DAY, ROOT).ok()?;
    let memento = list.first()?;
    let mut builder = MementosBuilder::new(alloc);
    builder.push(memento.at, URI).ok()?;
    let is_answered = builder.push_copy(memento).is_ok();
    let is_repeated = !is_answered && builder.push_copy(memento).is_ok();
    let list = builder.build(alloc).ok()?;
    Some(Tried::of_change(Change {
        is_answered,
        is_as_before: list.len() == 2,
        is_repeated,
    }))
}

fn build(alloc: Global) -> Option<Tried> {
    let at = moment(FIRST_DAY).ok()?;
    let mut builder = MementosBuilder::new(alloc);
    builder.push(at, URI).ok()?;
    Some(Tried::of(builder.build(alloc).is_ok()))
}

/// Calls that write a TimeMap or a part of one.
#[derive(Clone, Copy, Debug)]
enum Listing {
    WriteTimemap,
    WriteIndex,
    WritePage,
    WriteGateLinks,
}

const LISTINGS: [Listing; 4] = [
    Listing::WriteTimemap,
    Listing::WriteIndex,
    Listing::WritePage,
    Listing::WriteGateLinks,
];

fn try_listing(alloc: Global, call: Listing) -> Option<Tried> {
    let base = service(alloc).ok()?;
    let original = original(alloc).ok()?;
    let list = mementos(alloc, FIRST_DAY, URI).ok()?;
    let is_answered = match call {
        Listing::WriteTimemap => write_timemap(alloc, &base, &original, &list).is_ok(),
        Listing::WriteIndex => write_index(alloc, &base, &original, &list).is_ok(),
        Listing::WritePage => {
            pages(&list) > 0 && write_page(alloc, &base, &original, &list, 1).is_ok()
        }
        Listing::WriteGateLinks => write_gate_links(alloc, &base, &original, &list).is_ok(),
    };
    Some(Tried::of(is_answered))
}

/// Calls that copy a text.
#[derive(Clone, Copy, Debug)]
enum Copying {
    OctetsTryClone,
    CleanPacked,
    CleanPart,
    CleanTryClone,
    CleanWithoutFragment,
    OriginalPart,
    OriginalTryClone,
    MementoTryClone,
    ServiceTryClone,
}

/// Those that share its buffer.
const SHARING: [Copying; 7] = [
    Copying::CleanPart,
    Copying::CleanTryClone,
    Copying::CleanWithoutFragment,
    Copying::OriginalPart,
    Copying::OriginalTryClone,
    Copying::MementoTryClone,
    Copying::ServiceTryClone,
];

fn clean(alloc: Global) -> Option<Clean> {
    Clean::new(alloc, URI).ok()
}

fn copy_memento(alloc: Global) -> Option<bool> {
    let list = mementos(alloc, FIRST_DAY, URI).ok()?;
    Some(list.first()?.try_clone().is_ok())
}

fn copy(alloc: Global, call: Copying) -> Option<Tried> {
    let is_answered = match call {
        Copying::OctetsTryClone => Octets::from_slice(alloc, URI).ok()?.try_clone().is_ok(),
        Copying::CleanPacked | Copying::CleanPart | Copying::OriginalPart => {
            copy_part(alloc, call)?
        }
        Copying::CleanTryClone => clean(alloc)?.try_clone().is_ok(),
        Copying::CleanWithoutFragment => clean(alloc)?.without_fragment().is_ok(),
        Copying::OriginalTryClone => original(alloc).ok()?.try_clone().is_ok(),
        Copying::MementoTryClone => copy_memento(alloc)?,
        Copying::ServiceTryClone => service(alloc).ok()?.try_clone().is_ok(),
    };
    Some(Tried::of(is_answered))
}

fn copy_part(alloc: Global, call: Copying) -> Option<bool> {
    let text = Vec::from_slice(alloc, URI).ok()?;
    let buffer = Arc::new(alloc, text).ok()?;
    if buffer.len() < 4 {
        return None;
    }
    Some(match call {
        Copying::CleanPacked => Clean::part(&buffer, 0, 4).ok()?.packed(alloc).is_ok(),
        Copying::CleanPart => Clean::part(&buffer, 0, 4).is_ok(),
        _ => Original::part(&buffer, 0, 4).is_ok(),
    })
}

/// Makes each call, and names it.
pub(crate) fn perform(rt: &HostRuntime, alloc: Global) -> Result<()> {
    for call in READINGS {
        insist(rt, call, || read(alloc, call))?;
    }
    for call in ON_LINKS {
        insist(rt, call, || read_link(alloc, call))?;
    }
    for call in WRITINGS {
        insist(rt, call, || try_writing(alloc, call))?;
    }
    perform_steps(rt, alloc)?;
    for call in LISTINGS {
        insist(rt, call, || try_listing(alloc, call))?;
    }
    perform_copies(rt, alloc)
}

fn perform_steps(rt: &HostRuntime, alloc: Global) -> Result<()> {
    insist(rt, Stepping::LinkReaderRead, || read_crowded(alloc))?;
    insist(rt, Stepping::MementosBuilderPush, || push(alloc))?;
    insist(rt, Stepping::MementosBuilderPushCopy, || push_copy(alloc))?;
    insist(rt, Stepping::MementosBuilderBuild, || build(alloc))
}

fn perform_copies(rt: &HostRuntime, alloc: Global) -> Result<()> {
    for call in [Copying::OctetsTryClone, Copying::CleanPacked] {
        insist(rt, call, || copy(alloc, call))?;
    }
    for call in SHARING {
        share(rt, call, || copy(alloc, call))?;
    }
    Ok(())
}
