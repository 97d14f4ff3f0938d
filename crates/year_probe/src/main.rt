//! Makes the calls of schedules and of books of wishes that its input names, and prints what each returns.
//!
//! A line is a command: the place of a run, a word, and numbers. `new` begins a run, `plans` has the words of its
//! schedule, `books` those of its book, and `desks` those of its granted wishes. What is printed waits for an empty
//! line, so that who plays many runs at once writes and reads once for all of them.
//!
//! `tests/year` plays the clock, the archives and the readers, and looks at what is printed.
#![tactic(auto)]

mod books;
mod desks;
mod lines;
mod plans;
mod runs;

use crate::lines::Line;
use crate::runs::{Run, begin};
use anyhow::{Context, Result};
use std::alloc::AllocGlobal;
use std::io::{BufRead, BufReader, Write};
use std::random::RandomSource;

/// Performs a command, and says what its call returned.
fn perform<R>(rt: &R, runs: &mut Vec<Run>, line: &Line, said: &mut String) -> Result<()>
where
    R: RandomSource + AllocGlobal,
{
    let alloc = rt.alloc();
    let place = line.place(0)?;
    if line.word() == "new" {
        begin(rt, runs, place, line)?;
        writeln!(said, "done")?;
        return Ok(());
    }
    let run = runs.get_mut(place).context("no such run")?;
    if plans::perform(&mut run.plan, line, said)?
        || books::perform(alloc, run.keys, &mut run.book, line, said)?
    {
        return Ok(());
    }
    desks::perform(alloc, &mut run.desk, line, said)
}

fn main(rt: HostRuntime) -> Result<()> {
    let alloc = rt.alloc();
    let mut runs = Vec::new(alloc);
    let mut said = String::new(alloc);
    for text in BufReader::new(alloc, rt.reader())?.lines(alloc) {
        let text = text?;
        if text.is_empty() {
            rt.stdout().write_all(said.as_bytes())?;
            said.clear();
            continue;
        }
        let line = Line::new(alloc, text.as_str())?;
        perform(&rt, &mut runs, &line, &mut said)?;
    }
    Ok(())
}
