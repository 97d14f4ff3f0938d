//! Snapshots in files.

use crate::faults::{ReadFault, WriteFault};
use crate::reading::read_snapshot;
use crate::writing::write_snapshot;
use harvest_lattice::State;
use std::alloc::AllocGlobal;
use std::fs::{self, OpenFile, OpenOptions};
use std::io::{self, BufReader};
use std::os::unix::fs::{FileTypeExt, OpenOptionsExt};
use std::path::PathBuf;
use std::rt::Files;

/// How many files of one place are set aside at most.
const MOST_ASIDE: usize = 3;

/// Whoever runs the program reads and writes a snapshot, and nobody else.
const OWN: u32 = 0o600;

/// The folder of a file.
fn folder_of(path: &str) -> &str {
    match path.rsplit_once('/') {
        Some(("", _)) => "/",
        Some((folder, _)) => folder,
        None => ".",
    }
}

/// Has the system put the names in a file's folder on the disk.
fn flush_folder<R: Files>(rt: &R, path: &str) -> io::Result<()> {
    fs::open(rt, folder_of(path))?.sync_all()
}

/// Where the file at PATH is: where PATH is a symlink, what that names, so that the link stays.
fn place_of<R: Files + AllocGlobal>(rt: &R, path: &str) -> io::Result<String> {
    match fs::canonicalize(rt, path) {
        Ok(place) => Ok(place.into_string()),
        Err(error) if error.kind() == io::ErrorKind::NotFound => new_place(rt, path),
        Err(error) => Err(error),
    }
}

/// The same where there is no file: PATH, or what the symlink names that stands there.
fn new_place<R: Files + AllocGlobal>(rt: &R, path: &str) -> io::Result<String> {
    let Ok(named) = fs::read_link(rt, path) else {
        return Ok(String::from_str(rt.alloc(), path)?);
    };
    let mut place = PathBuf::from_str(rt.alloc(), folder_of(path))?;
    place.push(named)?;
    Ok(place.into_string())
}

/// A new file. A symlink that stands there is removed and not followed, since what it names isn't a snapshot's.
fn create_anew<R: Files>(rt: &R, path: &str) -> io::Result<R::File> {
    match fs::remove_file(rt, path) {
        Err(error) if error.kind() != io::ErrorKind::NotFound => return Err(error),
        _ => {}
    }
    OpenOptions::new()
        .write(true)
        .create_new(true)
        .mode(OWN)
        .open(rt, path)
}

/// Writes a snapshot to a new file, and waits until the system has it on the disk.
fn write_file<R: Files + AllocGlobal>(rt: &R, state: &State, path: &str) -> Result<(), WriteFault> {
    let mut file = create_anew(rt, path)?;
    write_snapshot(rt.alloc(), state, &mut file)?;
    file.sync_all()?;
    Ok(())
}

/// Writes a snapshot to the file NEW, and gives it the place of the file at PATH.
fn replace_file<R: Files + AllocGlobal>(
    rt: &R,
    state: &State,
    new: &str,
    path: &str,
) -> Result<(), WriteFault> {
    write_file(rt, state, new)?;
    fs::rename(rt, new, path)?;
    Ok(())
}

/// Keeps the state at PATH: writes a snapshot to `PATH.new`, and gives that the place of PATH once it is on the disk.
/// Until then PATH stays as it was, and where it stays so `PATH.new` is removed, if that is possible. Where PATH is a
/// symlink, all of that happens where it leads.
pub fn keep_snapshot<R: Files + AllocGlobal>(
    rt: &R,
    state: &State,
    path: &str,
) -> Result<(), WriteFault> {
    let place = place_of(rt, path)?;
    let new = format!(in rt.alloc(); "{place}.new")?;
    if let Err(fault) = replace_file(rt, state, new.as_str(), place.as_str()) {
        let _ = fs::remove_file(rt, new.as_str());
        return Err(fault);
    }
    flush_folder(rt, place.as_str())?;
    Ok(())
}

/// Opens the file at PATH, if there is one. What isn't a file isn't opened: a pipe may give nothing for ever, and a
/// device may have no end.
fn open_file<R: Files>(rt: &R, path: &str) -> io::Result<R::File> {
    if !fs::metadata(rt, path)?.is_file() {
        return Err(io::Error::from(io::ErrorKind::InvalidInput));
    }
    fs::open(rt, path)
}

/// The states of the snapshot at PATH, in order, or `None` if there is no such file. They are to be joined all, or none
/// of them.
pub fn take_snapshot<R: Files + AllocGlobal>(
    rt: &R,
    path: &str,
) -> Result<Option<Vec<State>>, ReadFault> {
    let file = match open_file(rt, path) {
        Ok(file) => file,
        Err(error) if error.kind() == io::ErrorKind::NotFound => return Ok(None),
        Err(_) => return Err(ReadFault::NotRead),
    };
    let Ok(mut reader) = BufReader::new(rt.alloc(), file) else {
        return Err(ReadFault::NoMemory);
    };
    let states = read_snapshot(rt.alloc(), &mut reader)?;
    Ok(Some(states))
}

/// A name for what is set aside that nothing has yet: `PATH.bad`, `PATH.bad.2` or `PATH.bad.3`.
fn name_aside<R: Files + AllocGlobal>(rt: &R, place: &str) -> io::Result<String> {
    for number in 1..=MOST_ASIDE {
        let name = match number {
            1 => format!(in rt.alloc(); "{place}.bad")?,
            _ => format!(in rt.alloc(); "{place}.bad.{number}")?,
        };
        match fs::symlink_metadata(rt, name.as_str()) {
            Err(error) if error.kind() == io::ErrorKind::NotFound => return Ok(name),
            _ => {}
        }
    }
    Err(io::Error::from(io::ErrorKind::AlreadyExists))
}

/// Renames the file at PATH, so that the next snapshot doesn't take its place: to `PATH.bad`, or to `PATH.bad.2` or
/// `PATH.bad.3` if that stands there, since what was set aside before may be good. Where PATH is a symlink, the file
/// that it names is renamed. Refused if all three stand there, and for a device.
pub fn set_aside<R: Files + AllocGlobal>(rt: &R, path: &str) -> io::Result<()> {
    let place = place_of(rt, path)?;
    let kind = fs::symlink_metadata(rt, place.as_str())?.file_type();
    if kind.is_char_device() || kind.is_block_device() {
        return Err(io::Error::from(io::ErrorKind::InvalidInput));
    }
    let aside = name_aside(rt, place.as_str())?;
    fs::rename(rt, place.as_str(), aside.as_str())?;
    flush_folder(rt, place.as_str())
}
