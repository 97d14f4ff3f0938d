//! Files that are read anew for each round.
use std::alloc::AllocGlobal;
use std::fs;
use std::io::{self, Read};
use std::rt::Files;

/// The most bytes that such a file can have.
const MOST_BYTES: u64 = 268_435_456;

/// Why a file isn't read.
#[derive(Clone, Copy, Debug, PartialEq, Eq)]
pub enum FileFault {
    /// It isn't there, it isn't a file, it can't be read, or it is too long.
    Unread,
    NoMemory,
}

/// Opens a file. What isn't a file isn't opened: a pipe may give nothing for ever, and a device may have no end.
fn open_file<R: Files>(rt: &R, path: &str) -> io::Result<R::File> {
    if !fs::metadata(rt, path)?.is_file() {
        return Err(io::Error::from(io::ErrorKind::InvalidInput));
    }
    fs::open(rt, path)
}

/// The bytes of a file.
pub fn read_file<R: Files + AllocGlobal>(rt: &R, path: &str) -> Result<Vec<u8>, FileFault> {
    let mut bytes = Vec::new(rt.alloc());
    let file = open_file(rt, path).map_err(|_| FileFault::Unread)?;
    match file.take(MOST_BYTES + 1).read_to_end(&mut bytes) {
        Ok(_) if bytes.len() as u64 <= MOST_BYTES => Ok(bytes),
        Ok(_) => Err(FileFault::Unread),
        Err(error) if error.kind() == io::ErrorKind::OutOfMemory => Err(FileFault::NoMemory),
        Err(_) => Err(FileFault::Unread),
    }
}
