//! What the words of the command line ask for.
ghost use Rattle.std.specs.Prelude.{◌≡◌};
ghost use Rattle.aggregator.specs.Words as spec;
ghost use Rattle.aggregator.specs.Words.{asked_by, subject_named};

use crate::failure::Failure;
use single_questions::{TextForm, Want, read_digits};
use std::env::Args;
use std::iter::Skip;

/// What the program has to do.
#[derive(Drop)]
pub(crate) enum Command {
    /// Replay the script on standard input.
    Replay,
    /// Read the settings of this file, and say what they hold.
    Check(String),
    /// Serve by the settings of this file.
    Serve(String),
    /// Ask archives, without a service.
    Ask(Inquiry),
    /// Say how the program is called.
    Help,
    /// Say which version it is.
    Version,
}

/// What archives are asked for.
#[derive(Drop)]
pub(crate) struct Inquiry {
    /// The file of settings that names the archives.
    pub(crate) file: String,
    /// The original; `-` for a list on standard input.
    pub(crate) original: String,
    pub(crate) want: Want,
}

/// What an inquiry is about.
#[derive(Clone, Copy, Debug, PartialEq, Eq)]
pub(crate) enum Subject {
    TimeMap,
    TimeGate,
}

impl Subject {
    /// The subject of an inquiry with this word.
    pub(crate) fn named(word: &str) -> Option<Subject>
        ensures { result ≡ subject_named word.now }
    {
        if word.as_bytes() == b"timemap".as_slice() {
            Some(Subject::TimeMap)
        } else if word.as_bytes() == b"timegate".as_slice() {
            Some(Subject::TimeGate)
        } else {
            None
        }
    }
}

/// What a word asks for, with the word after it, if there is one.
pub(crate) fn command_named(word: &str, file: Option<String>) -> Result<Command, Failure>
    ensures { result ≡ asked_by word.now file }
{
    match file {
        None if word.as_bytes() == b"replay".as_slice() => Ok(Command::Replay),
        None if is_help(word) => Ok(Command::Help),
        None if word.as_bytes() == b"--version".as_slice() => Ok(Command::Version),
        Some(file) if word.as_bytes() == b"check".as_slice() => Ok(Command::Check(file)),
        Some(file) if word.as_bytes() == b"serve".as_slice() => Ok(Command::Serve(file)),
        _ => Err(Failure::Usage),
    }
}

fn is_help(word: &str) -> bool
    ensures { result ≡ spec.is_help word.now }
{
    let word = word.as_bytes();
    word == b"--help".as_slice() || word == b"-h".as_slice() || word == b"help".as_slice()
}

/// The words of an inquiry: a file, an original, and what else it may have.
#[derive(Drop)]
struct InquiryWords {
    file: Option<String>,
    original: Option<String>,
    datetime: Option<String>,
    form: Option<String>,
}

impl InquiryWords {
    /// Takes the next word that isn't an option.
    fn take(&mut self, word: String) -> Result<(), Failure> {
        let place = if self.file.is_none() {
            &mut self.file
        } else if self.original.is_none() {
            &mut self.original
        } else if self.datetime.is_none() {
            &mut self.datetime
        } else {
            return Err(Failure::InquiryUsage);
        };
        *place = Some(word);
        Ok(())
    }
}

/// The TimeMap that an inquiry asks for: in link-format unless it names another form.
fn wanted_timemap(form: Option<String>) -> Result<Want, Failure> {
    let Some(name) = form else {
        return Ok(Want::TimeMap(TextForm::Link));
    };
    match TextForm::named(name.as_str()) {
        Some(form) => Ok(Want::TimeMap(form)),
        None => Err(Failure::InquiryUsage),
    }
}

/// The memento that an inquiry asks for: the most recent unless it names a datetime.
fn wanted_memento(datetime: Option<String>) -> Result<Want, Failure> {
    let Some(digits) = datetime else {
        return Ok(Want::TimeGate(None));
    };
    match read_digits(digits.as_bytes()) {
        Some(moment) => Ok(Want::TimeGate(Some(moment))),
        None => Err(Failure::BadDatetime),
    }
}

/// What the words behind `timemap` or `timegate` ask for.
pub(crate) fn inquiry_of(subject: Subject, words: Skip<Args>) -> Result<Command, Failure> {
    let mut taken = InquiryWords {
        file: None,
        original: None,
        datetime: None,
        form: None,
    };
    let mut names_form = false;
    for word in words {
        if is_help(word.as_str()) {
            return Ok(Command::Help);
        }
        if names_form {
            taken.form = Some(word);
            names_form = false;
        } else if word.as_str() == "--form" {
            names_form = true;
        } else {
            taken.take(word)?;
        }
    }
    if names_form {
        return Err(Failure::InquiryUsage);
    }
    inquiry_with(subject, taken)
}

/// The inquiry with these words.
fn inquiry_with(subject: Subject, words: InquiryWords) -> Result<Command, Failure> {
    let (Some(file), Some(original)) = (words.file, words.original) else {
        return Err(Failure::InquiryUsage);
    };
    let want = match (subject, words.datetime, words.form) {
        (Subject::TimeMap, None, form) => wanted_timemap(form)?,
        (Subject::TimeGate, datetime, None) => wanted_memento(datetime)?,
        _ => return Err(Failure::InquiryUsage),
    };
    Ok(Command::Ask(Inquiry {
        file,
        original,
        want,
    }))
}
