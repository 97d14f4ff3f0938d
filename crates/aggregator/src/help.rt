//! What the program says of itself.
use crate::failure::Failure;
use crate::version::VERSION;
use std::io::{self, Write};

/// How the program is called.
const HELP: &str = "\
Answers where a web page's archived copies are: a Memento aggregator.

aggregator serve FILE     serve by the settings in FILE
aggregator check FILE     read the settings in FILE, and say what they hold
aggregator [replay]       replay the script on standard input
aggregator timemap FILE ORIGINAL [--form link|json|cdxj]
                          ask the archives that FILE names for the copies of
                          ORIGINAL, and write the merged TimeMap
aggregator timegate FILE ORIGINAL [YYYYMMDDhhmmss]
                          ask them, and write the address of the copy that is
                          nearest to the datetime (without it, of the newest)
aggregator --help, -h, help
aggregator --version

FILE needs no more than [[archives]] to ask. With - in place of ORIGINAL the
originals are read from standard input, one a line. These two end with status
0 if a copy is known, 1 if every archive answered that it has none, 4 if none
is known and an archive failed. Wrong words, settings and originals end with
status 2, and devices with 3. aggregator(1) says more.
";

fn write_all<W: Write>(out: &mut W, text: &str) -> io::Result<()> {
    out.write_all(text.as_bytes())?;
    out.flush()?;
    Ok(())
}

/// Writes how the program is called.
pub(crate) fn say_help<W: Write>(out: &mut W) -> Result<(), Failure> {
    write_all(out, HELP).map_err(|error| Failure::of_device(&error))
}

/// Writes which version the program is.
pub(crate) fn say_version<W: Write>(out: &mut W) -> Result<(), Failure> {
    let written = writeln!(out, "aggregator {VERSION}").and_then(|_| out.flush());
    written.map_err(|error| Failure::of_device(&error))
}
