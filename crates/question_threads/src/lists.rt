//! A list of originals, one a line, which a thread of its own reads: so answers don't wait for the next line.
use crossbeam_channel::{Receiver, RecvTimeoutError, Sender, TryRecvError, bounded};
use memento_time::{NoMemory, Original};
use original_list::{Row, row_of};
use std::alloc::{AllocError, AllocGlobal, Global};
use std::io::{self, BufRead, BufReader, Read};
use std::sync::Wait;
use std::thread::{self, Threads};
use std::time::{Clock, Duration};

/// The most bytes of a line that are read. An original has fewer.
const MAX_LINE: u64 = 16_384;

/// How many lines wait to be asked.
const LINES: usize = 16;

/// What was read of a list.
#[derive(Drop)]
pub(crate) enum Line {
    Original(Original),
    /// The line with this number, from 1 on, holds none.
    Bad(u64),
    /// No more can be read, as memory was refused.
    NoMemory,
    /// No more can be read.
    Unread,
}

/// What comes next of a list.
#[derive(Drop)]
pub(crate) enum Next {
    Line(Line),
    /// Nothing for now.
    Nothing,
    /// The list is over.
    End,
}

/// A list that is read by a thread of its own, a few lines ahead.
#[derive(Drop)]
pub(crate) struct List {
    lines: Receiver<Line>,
}

/// Adds what is left of a line, so far as it is short enough. Returns whether the list goes on.
fn read_line<I: BufRead>(input: &mut I, line: &mut Vec<u8>) -> io::Result<bool> {
    let read = input.by_ref().take(MAX_LINE).read_until(b'\n', line)?;
    Ok(read > 0)
}

/// Passes over what is left of a line that is too long.
fn pass_over<I: BufRead>(input: &mut I, line: &mut Vec<u8>) -> io::Result<()> {
    for _ in 0..u64::MAX {
        if line.ends_with(b"\n") {
            return Ok(());
        }
        line.clear();
        if !read_line(input, line)? {
            return Ok(());
        }
    }
    Ok(())
}

/// What the line with this number holds, if it isn't blank.
fn line_of(alloc: Global, number: u64, text: &[u8]) -> Result<Option<Line>, NoMemory> {
    Ok(match row_of(alloc, text)? {
        Row::Named(original) => Some(Line::Original(original)),
        Row::Bad => Some(Line::Bad(number)),
        Row::Blank => None,
    })
}

/// What the next line holds, and whether there is one.
fn next_line<I: BufRead>(
    alloc: Global,
    input: &mut I,
    number: u64,
) -> io::Result<(bool, Option<Line>)> {
    let mut line = Vec::new(alloc);
    if !read_line(input, &mut line)? {
        return Ok((false, None));
    }
    if line.len() as u64 == MAX_LINE && !line.ends_with(b"\n") {
        pass_over(input, &mut line)?;
        return Ok((true, Some(Line::Bad(number))));
    }
    let text = line.strip_suffix(b"\n").unwrap_or(&line);
    match line_of(alloc, number, text) {
        Ok(found) => Ok((true, found)),
        Err(NoMemory) => Ok((false, Some(Line::NoMemory))),
    }
}

/// Reads lines until there are no more, or nobody asks for them.
fn read_lines<R, I>(rt: &R, mut input: I, lines: Sender<Line>)
where
    R: Wait + AllocGlobal,
    I: BufRead + Drop,
{
    for number in 1..u64::MAX {
        let (goes_on, found) = match next_line(rt.alloc(), &mut input, number) {
            Ok(next) => next,
            Err(_) => (false, Some(Line::Unread)),
        };
        if let Some(line) = found {
            if lines.send(rt, line).is_err() {
                return;
            }
        }
        if !goes_on {
            return;
        }
    }
}

impl List {
    /// Begins to read a list. Where no thread can be started, nothing is read.
    pub(crate) fn start<R, I>(rt: &R, input: I) -> Result<List, io::Error>
    where
        R: Wait + AllocGlobal + Threads + Sync + Send + Clone + Drop + 'static,
        I: Read + Send + Drop + 'static,
    {
        let (sender, lines) = bounded(rt.alloc(), LINES).map_err(io::Error::from)?;
        let own = rt.clone().map_err(io::Error::from)?;
        let input = BufReader::new(rt.alloc(), input)?;
        let _ = thread::spawn(rt, move || read_lines(&own, input, sender))?;
        Ok(List { lines })
    }

    /// What comes next, without waiting.
    pub(crate) fn next(&self, rt: &impl Wait) -> Next {
        match self.lines.try_recv(rt) {
            Ok(line) => Next::Line(line),
            Err(TryRecvError::Empty) => Next::Nothing,
            Err(TryRecvError::Disconnected) => Next::End,
        }
    }

    /// What comes next within so many milliseconds.
    pub(crate) fn wait<R: Wait + Clock>(&self, rt: &R, milliseconds: u64) -> Next {
        match self
            .lines
            .recv_timeout(rt, Duration::from_millis(milliseconds))
        {
            Ok(line) => Next::Line(line),
            Err(RecvTimeoutError::Timeout) => Next::Nothing,
            Err(RecvTimeoutError::Disconnected) => Next::End,
        }
    }
}
