//! Seconds and dates, clean texts, names of archives, and lists of mementos (`memento_time`).
use crate::makers::{FIRST_DAY, THIRD_DAY, archive, clean, memento, mementos, moment, original};
use crate::tables::{expanded, follow, halves, hold, is, is_number, number};
use anyhow::Result;
use memento_time::{
    ArchiveName, Clean, CleanFault, DateReader, DateWriter, Items, Memento, MementosBuilder,
    Moment, Octets, Original, in_order, is_clean,
};
use std::alloc::Global;
use std::sync::Arc;

/// IMF-fixdates and their seconds, as `date -u -d @SECONDS` tells them: days in a row, back and forth, leap days.
const DATES: &str = "Sun, 06 Nov 1994 08:49:37 GMT|784111777
Sun, 06 Nov 1994 00:00:00 GMT|784080000
Sun, 06 Nov 1994 23:59:59 GMT|784166399
Mon, 07 Nov 1994 00:00:00 GMT|784166400
Sun, 06 Nov 1994 08:49:37 GMT|784111777
Sat, 01 Jan 2000 00:00:00 GMT|946684800
Sun, 02 Jan 2000 00:00:00 GMT|946771200
Tue, 29 Feb 2000 00:00:00 GMT|951782400
Sun, 28 Feb 2100 23:59:59 GMT|4107542399
Fri, 31 Dec 9999 23:59:59 GMT|253402300799
Thu, 01 Jan 1970 00:00:00 GMT|0
";

/// Whether a moment is that of a second, or there is none where there is none.
fn is_second(moment: Option<Moment>, second: &str) -> bool {
    match moment {
        Some(moment) => is_number(Some(moment.secs()), second),
        None => is_number(None, second),
    }
}

fn is_date(_: Global, case: &str) -> Result<bool> {
    let (text, second) = halves(case);
    let moment = moment(number(second)?)?;
    Ok(
        is(moment.to_imf().as_slice(), text)
            && is_second(Moment::read_imf(text.as_bytes()), second)
            && is_second(Moment::read_asked(text.as_bytes()), second),
    )
}

#[test]
fn dates(rt: HostRuntime) -> Result<()> {
    hold(rt.alloc(), DATES, is_date)?;
    assert!(rt; Moment::from_secs(253_402_300_800).is_none());
    Ok(())
}

fn is_read_next(reader: &mut DateReader, case: &str) -> Result<bool> {
    let (text, second) = halves(case);
    Ok(is_second(reader.read(text.as_bytes()), second))
}

fn is_written_next(writer: &mut DateWriter, case: &str) -> Result<bool> {
    let (text, second) = halves(case);
    let moment = moment(number(second)?)?;
    Ok(is(writer.write(moment).as_slice(), text))
}

/// One reader and one writer go from date to date.
#[test]
fn rows_of_dates(_rt: HostRuntime) -> Result<()> {
    follow(&mut DateReader::new(), DATES, is_read_next)?;
    follow(&mut DateWriter::new(), DATES, is_written_next)
}

/// Dates, and their seconds: a reader that has read a date reads others of the same day as they stand.
const ONE_DAY: &str = "Thu, 01 Jan 1970 00:00:00 GMT|0
Thu, 01 Jan 1970 24:00:00 GMT|none
Thu, 01 Jan 1970 00:00:00 UTC|none
Fri, 01 Jan 1970 00:00:01 GMT|1
|none
";

#[test]
fn dates_of_one_day(_rt: HostRuntime) -> Result<()> {
    follow(&mut DateReader::new(), ONE_DAY, is_read_next)
}

/// Dates, and the second that each asks for.
const ASKED: &str = "Mon, 01 Jan 2000 00:00:00 GMT|946684800
 \tMon, 01 Jan 2000 00:00:00 GMT\t |946684800
Sat, 01 Jan 2000 00:00:00 GMT\r|none
Fri, 01 Jan 1960 00:00:00 GMT|0
Thu, 99 Feb 1960 99:99:99 GMT|0
Tue, 31 Feb 2000 00:00:00 GMT|none
Saturday, 01-Jan-00 00:00:00 GMT|none
Sat Jan  1 00:00:00 2000|none
sat, 01 Jan 2000 00:00:00 GMT|none
|none
";

fn is_asked(_: Global, case: &str) -> Result<bool> {
    let (text, second) = halves(case);
    Ok(is_second(Moment::read_asked(text.as_bytes()), second))
}

#[test]
fn asked(rt: HostRuntime) -> Result<()> {
    hold(rt.alloc(), ASKED, is_asked)?;
    assert!(rt; is_asked(rt.alloc(), "\nSat, 01 Jan 2000 00:00:00 GMT|none")?);
    assert!(rt; Moment::read_imf(b" Mon, 01 Jan 2000 00:00:00 GMT").is_none());
    Ok(())
}

/// Texts, and whether each is clean, an original, and the name of an archive.
const TEXTS: &str = "{x*64}|clean original name
{x*65}|clean original
{x*4096}|clean original
{x*4097}|clean
{x*8192}|clean
{x*8193}|
|
a b|
 |
A|clean original
_|clean original
/|clean original
";

/// What a text is.
fn kinds_of(alloc: Global, text: &[u8]) -> &'static str {
    let is_original = Original::new(alloc, text).is_ok();
    let is_name = ArchiveName::new(text).is_some();
    match (is_clean(text), is_original, is_name) {
        (true, true, true) => "clean original name",
        (true, true, false) => "clean original",
        (true, false, false) => "clean",
        (false, false, false) => "",
        _ => "otherwise",
    }
}

fn are_kinds(alloc: Global, case: &str) -> Result<bool> {
    let (text, kinds) = halves(case);
    let text = expanded(alloc, text)?;
    Ok(
        is(kinds_of(alloc, &text).as_bytes(), kinds)
            && Clean::new(alloc, &text).is_ok() == is_clean(&text),
    )
}

#[test]
fn kinds_of_texts(rt: HostRuntime) -> Result<()> {
    hold(rt.alloc(), TEXTS, are_kinds)
}

fn is_copied(text: &Clean) -> Result<bool> {
    Ok(text.try_clone()? == *text)
}

fn is_original_copied(text: &Original) -> Result<bool> {
    Ok(text.try_clone()? == *text)
}

fn are_octets_copied(text: &Octets) -> Result<bool> {
    Ok(text.try_clone()? == *text)
}

fn is_memento_copied(memento: &Memento) -> Result<bool> {
    Ok(memento.try_clone()? == *memento)
}

#[test]
fn copies(rt: HostRuntime) -> Result<()> {
    let alloc = rt.alloc();
    assert!(rt; is_copied(&clean(alloc, b"a")?)?);
    assert!(rt; is_original_copied(&original(alloc, b"a")?)?);
    assert!(rt; are_octets_copied(&Octets::from_slice(alloc, b"ab")?)?);
    assert!(rt; is_memento_copied(&memento(alloc, 7, b"a")?)?);
    Ok(())
}

#[test]
fn bytes(rt: HostRuntime) -> Result<()> {
    let alloc = rt.alloc();
    assert!(rt; is(clean(alloc, b"a")?.as_bytes(), "a"));
    assert!(rt; is(&Octets::from_slice(alloc, b"ab")?.into_vec(), "ab"));
    Ok(())
}

#[test]
fn names(rt: HostRuntime) -> Result<()> {
    let (short, long) = (archive(b"a-1.z")?, archive(b"a-1.zs")?);
    assert!(rt; short < long && is(short.as_bytes(), "a-1.z"));
    let items = Items::of(vec![in rt.alloc(); short, long]?);
    assert!(rt; items.clone()? == items);
    assert!(rt; items.as_slice().len() == 2 && items.into_vec().len() == 2);
    Ok(())
}

/// Whether this is what the text says, with its fragment and without; nothing is left of a fragment alone.
fn says(text: &Clean, whole: &str, front: &str) -> Result<bool> {
    let without = match text.without_fragment()? {
        Some(without) => is(without.as_bytes(), front),
        None => front.is_empty(),
    };
    Ok(without && is(text.before_fragment(), front) && is(text.as_str().as_bytes(), whole))
}

/// The parts of a buffer.
#[test]
fn parts(rt: HostRuntime) -> Result<()> {
    let alloc = rt.alloc();
    let buffer = Arc::new(alloc, Vec::from_slice(alloc, b"ab x:/#top")?)?;
    assert!(rt; says(&Clean::part(&buffer, 3, 7)?, "x:/#top", "x:/")?);
    assert!(rt; says(&Clean::part(&buffer, 6, 4)?, "#top", "")?);
    assert!(rt; Clean::part(&buffer, 0, 4).err() == Some(CleanFault::NotClean));
    assert!(rt; is(Original::part(&buffer, 0, 2)?.as_bytes(), "ab"));
    Ok(())
}

/// A part of a buffer, and then a text that has its buffer to itself.
#[test]
fn packed_texts(rt: HostRuntime) -> Result<()> {
    let alloc = rt.alloc();
    let buffer = Arc::new(alloc, Vec::from_slice(alloc, b"ab x:/#top")?)?;
    let packed = Clean::part(&buffer, 3, 7)?.packed(alloc)?;
    assert!(rt; says(&packed, "x:/#top", "x:/")?);
    assert!(rt; says(&packed.packed(alloc)?, "x:/#top", "x:/")?);
    Ok(())
}

/// Captures in no order, one of them twice.
const CAPTURES: [(u64, &[u8]); 4] = [
    (THIRD_DAY, b"b"),
    (FIRST_DAY, b"a"),
    (THIRD_DAY, b"b"),
    (FIRST_DAY, b"b"),
];

/// The same in order, each once.
const IN_ORDER: [(u64, &[u8]); 3] = [(FIRST_DAY, b"a"), (FIRST_DAY, b"b"), (THIRD_DAY, b"b")];

/// The mementos of these captures, of which a builder makes a list.
fn built(alloc: Global, captures: &[(u64, &[u8])]) -> Result<Vec<Memento>> {
    let mut builder = MementosBuilder::new(alloc);
    for (second, uri) in captures {
        builder.push(moment(*second)?, uri)?;
    }
    Ok(builder.build(alloc)?)
}

#[test]
fn lists_of_mementos(rt: HostRuntime) -> Result<()> {
    let alloc = rt.alloc();
    assert!(rt; built(alloc, &CAPTURES)? == mementos(alloc, &CAPTURES)?);
    assert!(rt; in_order(built(alloc, &CAPTURES)?) == mementos(alloc, &IN_ORDER)?);
    Ok(())
}

/// What can't be added leaves the list as it was.
#[test]
fn refused_mementos(rt: HostRuntime) -> Result<()> {
    let mut builder = MementosBuilder::new(rt.alloc());
    let refused = builder.push(moment(FIRST_DAY)?, b"a b");
    assert!(rt; refused == Err(CleanFault::NotClean));
    assert!(rt; builder.build(rt.alloc())?.is_empty());
    Ok(())
}
