//! `timemap` and `timegate`: ask archives for originals, without a service.
ghost use Rattle.std.specs.Prelude.{◌≡◌};
ghost use Rattle.std.specs.Process.{exit_status};
ghost use Rattle.aggregator.specs.Ending.{status_of_list, status_of_outcome};

use crate::check::{bad_key, text_in};
use crate::failure::Failure;
use crate::words::Inquiry;
use memento_time::Original;
use question_threads::{Ended, Teller, ask_list, ask_one};
use service_settings::{SettingsFault, Sources, read_sources};
use single_questions::Outcome;
use std::alloc::{AllocGlobal, Global};
use std::io::{Read, Write};
use std::net::{Net, TcpListener, TcpStream};
use std::process::ExitCode;
use std::random::RandomSource;
use std::rt::Files;
use std::sync::Wait;
use std::thread::Threads;
use std::time::Clock;
use timegate::original_at;

/// Every archive has answered, and none has a memento.
const NOTHING: u8 = 1;

/// A line of the list holds no original.
const BAD_LINE: u8 = 2;

/// No memento is known, and an archive failed.
const UNKNOWN: u8 = 4;

/// The exit status for what a question came to.
fn status_of_outcome(outcome: Outcome) -> ExitCode
    ensures { exit_status result ≡ status_of_outcome outcome }
{
    match outcome {
        Outcome::Found => ExitCode::SUCCESS,
        Outcome::Nothing => ExitCode::from(NOTHING),
        Outcome::Unknown => ExitCode::from(UNKNOWN),
    }
}

/// The exit status for what the questions of a list came to.
fn status_of_list(ended: Ended) -> ExitCode
    ensures { exit_status result ≡ status_of_list ended }
{
    if ended.bad > 0 {
        return ExitCode::from(BAD_LINE);
    }
    status_of_outcome(ended.outcome)
}

/// Which archives a file of settings names, and how they are asked.
fn sources_in<R: Files + AllocGlobal>(rt: &R, file: &str) -> Result<Sources, Failure> {
    let text = text_in(rt, file)?;
    match read_sources(rt.alloc(), text.as_str()) {
        Ok(sources) => Ok(sources),
        Err(SettingsFault::Key(key)) => Err(bad_key(rt.alloc(), text.as_str(), key)),
        Err(fault) => Err(Failure::from(fault)),
    }
}

/// The original that a word names.
fn original_of(alloc: Global, word: &str) -> Result<Original, Failure> {
    match original_at(alloc, word.as_bytes()) {
        Ok(Some(original)) => Ok(original),
        Ok(None) => Err(Failure::NoOriginal),
        Err(_) => Err(Failure::NoMemory),
    }
}

/// Asks the archives that an inquiry's file names for its original, or for the originals of the list on standard input,
/// and writes the answers to `out`. What fails is told by `teller`.
pub(crate) fn ask<R, I, W, E>(
    rt: &R,
    inquiry: Inquiry,
    input: I,
    out: &mut W,
    teller: Teller<E>,
) -> Result<ExitCode, Failure>
where
    R: Threads
        + Wait
        + Clock
        + Net<Listener = TcpListener, Stream = TcpStream>
        + RandomSource
        + Files
        + AllocGlobal
        + Sync
        + Send
        + Clone
        + Drop
        + 'static,
    I: Read + Send + Drop + 'static,
    W: Write,
    E: Write + Copy,
{
    let Inquiry {
        file,
        original,
        want,
    } = inquiry;
    if original.as_str() == "-" {
        let sources = sources_in(rt, file.as_str())?;
        let ended = ask_list(rt, sources, want, input, out, teller)?;
        return Ok(status_of_list(ended));
    }
    let original = original_of(rt.alloc(), original.as_str())?;
    let sources = sources_in(rt, file.as_str())?;
    let outcome = ask_one(rt, sources, want, original, out, teller)?;
    Ok(status_of_outcome(outcome))
}
