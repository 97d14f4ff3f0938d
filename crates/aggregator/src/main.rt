//! The program: what the words of its command line ask for, and what it says and returns when it ends.
//!
//! Standard output gets what the command writes and nothing else. A failure is one line on standard error, after the
//! log if the settings ask for one. Behind it stands what more is told: which file can't be read; and, if the settings
//! have a key by which more is told, what the key may hold or which entry of `originals` is none, and which keys aren't
//! looked at.
#![tactic(auto)]

mod asking;
mod check;
mod failure;
mod help;
mod serve;
mod telling;
mod version;
mod words;

use crate::asking::ask;
use crate::check::check;
use crate::failure::Failure;
use crate::help::{say_help, say_version};
use crate::serve::serve_file;
use crate::words::{Command, Subject, command_named, inquiry_of};
use question_threads::Teller;
use replica_world::{Watched, replay};
use std::env::{self, Env};
use std::io::IsTerminal;
use std::process::ExitCode;

/// What the words of the command line ask for.
fn command_of(rt: &(impl Env + AllocGlobal)) -> Result<Command, Failure> {
    let mut words = match env::args(rt) {
        Ok(words) => words.skip(1),
        Err(error) => return Err(Failure::of_words(&error)),
    };
    let Some(word) = words.next() else {
        return Ok(Command::Replay);
    };
    if let Some(subject) = Subject::named(word.as_str()) {
        return inquiry_of(subject, words);
    }
    let file = words.next();
    if words.next().is_some() {
        return Err(Failure::Usage);
    }
    command_named(word.as_str(), file)
}

/// Replays the script on standard input.
fn replay_input(rt: &HostRuntime) -> Result<(), Failure> {
    let mut input = Watched::new(rt.stdin());
    let mut output = Watched::new(rt.stdout());
    replay(rt.alloc(), &mut input, &mut output)?;
    Ok(())
}

/// How a command ends that only fails or not.
fn ended(outcome: Result<(), Failure>) -> Result<ExitCode, Failure> {
    outcome?;
    Ok(ExitCode::SUCCESS)
}

fn main(rt: HostRuntime) -> ExitCode {
    let (mut out, mut err) = (rt.stdout(), rt.stderr());
    let status = match command_of(&rt) {
        Ok(Command::Replay) => ended(replay_input(&rt)),
        Ok(Command::Check(file)) => ended(check(&rt, file.as_str(), &mut out, &mut err)),
        Ok(Command::Serve(file)) => ended(serve_file(&rt, file.as_str(), out, err)),
        Ok(Command::Ask(inquiry)) => {
            let teller = Teller::new(err, err.is_terminal());
            ask(&rt, inquiry, rt.stdin(), &mut out, teller)
        }
        Ok(Command::Help) => ended(say_help(&mut out)),
        Ok(Command::Version) => ended(say_version(&mut out)),
        Err(failure) => Err(failure),
    };
    match status {
        Ok(status) => status,
        Err(failure) => {
            let _ = eprintln!(rt; "{failure}");
            failure.status()
        }
    }
}
