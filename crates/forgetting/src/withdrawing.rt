//! What the file of what is withdrawn names.
use crate::files::{FileFault, read_file};
use memento_time::NoMemory;
use original_list::{Withdrawals, WithdrawnFault, read_withdrawn};
use original_sets::Key;
use retention::Withdrawn;
use service_log::WithdrawnMatter;
use service_settings::Settings;
use std::alloc::{AllocGlobal, Global};
use std::hash::RandomState;
use std::io::{self, Write};
use std::rt::Files;

/// What a text withdraws, and which of its lines name nothing.
#[derive(Drop)]
pub(crate) struct Read {
    pub(crate) withdrawn: Withdrawn,
    /// The first of them, by their numbers.
    pub(crate) bad: Vec<usize>,
    pub(crate) bad_count: usize,
}

/// The lines of a text that withdraws something in each.
fn lines_of(alloc: Global, text: &[u8]) -> Result<Withdrawals, WithdrawnMatter> {
    match read_withdrawn(alloc, text) {
        Ok(withdrawals) => Ok(withdrawals),
        Err(WithdrawnFault::NoMemory) => Err(WithdrawnMatter::NoMemory),
        Err(WithdrawnFault::ManyArchives) => Err(WithdrawnMatter::ManyArchives),
        Err(WithdrawnFault::ManyPrefixes) => Err(WithdrawnMatter::ManyPrefixes),
    }
}

/// What these lines withdraw.
fn withdrawn_by(
    alloc: Global,
    withdrawals: Withdrawals,
    keys: RandomState,
) -> Result<Read, NoMemory> {
    let Withdrawals {
        archives,
        originals,
        prefixes,
        bad,
        bad_count,
    } = withdrawals;
    let mut withdrawn = Withdrawn::nothing(alloc, keys)?;
    for archive in archives {
        withdrawn.add_archive(archive)?;
    }
    for original in &originals {
        withdrawn.add_original(Key::new(original)?)?;
    }
    for prefix in prefixes {
        withdrawn.add_prefix(prefix)?;
    }
    Ok(Read {
        withdrawn,
        bad,
        bad_count,
    })
}

/// What a text withdraws, and which of its lines name nothing.
pub(crate) fn read_text(
    alloc: Global,
    text: &[u8],
    keys: RandomState,
) -> Result<Read, WithdrawnMatter> {
    let withdrawals = lines_of(alloc, text)?;
    match withdrawn_by(alloc, withdrawals, keys) {
        Ok(read) => Ok(read),
        Err(_) => Err(WithdrawnMatter::NoMemory),
    }
}

/// Writes which lines of the file of what is withdrawn name nothing, if the settings name a file, in the log's words.
/// If it can't be read or is refused, that is written, and no error.
pub fn check_withdrawn<R: Files + AllocGlobal, W: Write>(
    rt: &R,
    settings: &Settings,
    out: &mut W,
) -> io::Result<()> {
    let Some(path) = &settings.forgetting.withdrawn_file else {
        return Ok(());
    };
    let text = match read_file(rt, path.as_str()) {
        Ok(text) => text,
        Err(FileFault::NoMemory) => return Err(io::Error::from(io::ErrorKind::OutOfMemory)),
        Err(FileFault::Unread) => return say(WithdrawnMatter::Unreadable, out),
    };
    match lines_of(rt.alloc(), &text) {
        Ok(withdrawals) => say_bad(&withdrawals, out),
        Err(WithdrawnMatter::NoMemory) => Err(io::Error::from(io::ErrorKind::OutOfMemory)),
        Err(matter) => say(matter, out),
    }
}

/// Writes which lines name nothing.
fn say_bad<W: Write>(withdrawals: &Withdrawals, out: &mut W) -> io::Result<()> {
    for number in &withdrawals.bad {
        say(WithdrawnMatter::Bad(*number as u64), out)?;
    }
    let more = withdrawals.bad_count.saturating_sub(withdrawals.bad.len());
    if more > 0 {
        say(WithdrawnMatter::More(more as u64), out)?;
    }
    Ok(())
}

fn say<W: Write>(matter: WithdrawnMatter, out: &mut W) -> io::Result<()> {
    writeln!(out, "withdrawn: {matter}")?;
    out.flush()
}
