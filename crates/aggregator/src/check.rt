//! `check FILE`: reads settings, and says what they hold, which lines of their file of originals hold none, and which
//! of their file of what is withdrawn name nothing.
use crate::failure::Failure;
use crate::telling::write_lines;
use aggregator_service::check_list;
use forgetting::check_withdrawn;
use service_settings::{
    Key, MAX_TEXT, Settings, SettingsFault, bad_original, read_settings, unknown_keys,
};
use std::alloc::Global;
use std::fs;
use std::io::{self, Read, Write};
use std::rt::Files;

/// The byte order mark in UTF-8.
const MARK: &[u8] = b"\xef\xbb\xbf";

/// Reads the settings of a file, and writes how many gates, archives, originals and peers they name. If they name a
/// file of originals, it writes which of its lines hold none. Which keys aren't looked at goes to `err`, if that is to
/// be told.
pub(crate) fn check<R: Files + AllocGlobal, W: Write, E: Write>(
    rt: &R,
    file: &str,
    out: &mut W,
    err: &mut E,
) -> Result<(), Failure> {
    let text = text_in(rt, file)?;
    let settings = settings_of(rt.alloc(), text.as_str())?;
    let unknown = unknown_keys(rt.alloc(), text.as_str())?;
    say_what_they_hold(rt, &settings, out)?;
    if let Some(lines) = unknown {
        // Whether standard error can be written changes nothing.
        let _ = write_lines(rt.alloc(), "", &lines, err);
    }
    Ok(())
}

/// Writes how many gates, archives, originals and peers these settings name, which lines of their file of originals
/// hold none, and which of their file of what is withdrawn name nothing.
fn say_what_they_hold<R: Files + AllocGlobal, W: Write>(
    rt: &R,
    settings: &Settings,
    out: &mut W,
) -> Result<(), Failure> {
    if let Err(error) = write_summary(settings, out) {
        return Err(Failure::of_device(&error));
    }
    check_list(rt, settings, out)?;
    if let Err(error) = check_withdrawn(rt, settings, out) {
        return Err(Failure::of_device(&error));
    }
    Ok(())
}

/// The text of settings in a file.
pub(crate) fn text_in<R: Files + AllocGlobal>(rt: &R, file: &str) -> Result<String, Failure> {
    let bytes = match read_file(rt, file) {
        Ok(bytes) => bytes,
        Err(error) => return Err(Failure::of_file(rt.alloc(), &error, file)),
    };
    match String::from_utf8(behind_mark(bytes)) {
        Ok(text) => Ok(text),
        Err(_) => Err(Failure::BadText),
    }
}

/// The bytes behind a byte order mark, if they begin with that: editors write one, and it belongs to no line.
fn behind_mark(mut bytes: Vec<u8>) -> Vec<u8> {
    if bytes.starts_with(MARK) {
        bytes.drain(..MARK.len());
    }
    bytes
}

/// The settings of a text.
pub(crate) fn settings_of(alloc: Global, text: &str) -> Result<Settings, Failure> {
    match read_settings(alloc, text) {
        Ok(settings) => Ok(settings),
        Err(SettingsFault::Key(key)) => Err(bad_key(alloc, text, key)),
        Err(fault) => Err(Failure::from(fault)),
    }
}

/// The fault of a key, with what is told behind what is specified, if that is to be told.
pub(crate) fn bad_key(alloc: Global, text: &str, key: Key) -> Failure {
    let Ok(Some(unknown)) = unknown_keys(alloc, text) else {
        return Failure::BadKey(key);
    };
    match number_of_bad(alloc, text, key) {
        Some(number) => Failure::BadOriginal {
            number: number as u64,
            unknown,
        },
        None => Failure::BadValue { key, unknown },
    }
}

/// The number of the first entry of `originals` that is none, if that is the key.
fn number_of_bad(alloc: Global, text: &str, key: Key) -> Option<usize> {
    match key {
        Key::Originals => bad_original(alloc, text),
        _ => None,
    }
}

/// The bytes of a file. If the file is too long, only enough of them to show that it is.
fn read_file<R: Files + AllocGlobal>(rt: &R, file: &str) -> io::Result<Vec<u8>> {
    let mut bytes = Vec::new(rt.alloc());
    fs::open(rt, file)?
        .take(MAX_TEXT as u64 + 1)
        .read_to_end(&mut bytes)?;
    Ok(bytes)
}

fn write_summary<W: Write>(settings: &Settings, out: &mut W) -> io::Result<()> {
    writeln!(
        out,
        "settings ok: gates {} archives {} originals {} peers {}",
        settings.gates.len(),
        settings.archives.len(),
        settings.originals.len(),
        settings.peers.len()
    )?;
    out.flush()?;
    Ok(())
}
