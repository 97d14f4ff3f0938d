//! `serve FILE`: reads settings, and serves by them.
use crate::check::{settings_of, text_in};
use crate::failure::Failure;
use crate::telling::write_lines;
use aggregator_service::serve_settings;
use service_settings::unknown_keys;
use std::alloc::{AllocGlobal, Global};
use std::io::Write;
use std::net::{Net, TcpListener, TcpStream};
use std::random::RandomSource;
use std::rt::Files;
use std::sync::Wait;
use std::thread::Threads;
use std::time::Clock;

/// Serves by the settings of a file until the last round and the last connection, and writes what it does to `out`,
/// line by line. The log goes to `log`, if the settings ask for one, and begins with the keys that aren't looked at, if
/// they are to be told.
pub(crate) fn serve_file<R, W, L>(rt: &R, file: &str, out: W, mut log: L) -> Result<(), Failure>
where
    R: Threads
        + Wait
        + Clock
        + Net<Listener = TcpListener, Stream = TcpStream>
        + RandomSource
        + Files
        + AllocGlobal
        + Sync
        + Send
        + Clone
        + Drop
        + 'static,
    W: Write + Drop,
    L: Write + Copy + Send + 'static,
{
    let text = text_in(rt, file)?;
    let settings = settings_of(rt.alloc(), text.as_str())?;
    if settings.log {
        log_unknown(rt.alloc(), text.as_str(), &mut log);
    }
    drop(text);
    serve_settings(rt, settings, out, log)?;
    Ok(())
}

/// Writes into the log which keys aren't looked at, if that is to be told. As with each line of the log, what isn't
/// written is missing, and nothing else.
fn log_unknown<L: Write>(alloc: Global, text: &str, log: &mut L) {
    if let Ok(Some(lines)) = unknown_keys(alloc, text) {
        let _ = write_lines(alloc, "log: ", &lines, log);
    }
}
