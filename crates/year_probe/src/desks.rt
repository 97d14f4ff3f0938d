//! The calls of granted wishes' jobs.
use crate::books::text_of;
use crate::lines::Line;
use anyhow::{Result, bail};
use std::alloc::Global;
use wish_list::{Ask, WishAnswer, WishJobs};

/// What an archive gave.
fn answer_of(kind: u64) -> Result<WishAnswer> {
    match kind {
        0 => Ok(WishAnswer::Copies),
        1 => Ok(WishAnswer::NoCopies),
        2 => Ok(WishAnswer::NoHarvest),
        _ => bail!("no answer"),
    }
}

/// Takes out the oldest wish that is over, and says what came of it.
fn take_ended(desk: &mut WishJobs, said: &mut String) -> Result<()> {
    match desk.take_ended() {
        Some(ended) => {
            let outcome = ended.outcome;
            writeln!(said, "{} {outcome:?}", text_of(&ended.original)?)?;
        }
        None => writeln!(said, "None")?,
    }
    Ok(())
}

/// Performs a command about a job. Returns whether the line has one.
fn perform_job(alloc: Global, desk: &mut WishJobs, line: &Line, said: &mut String) -> Result<bool> {
    match line.word() {
        "ready" => writeln!(said, "{:?}", desk.next(&line.flags(alloc, 2)?))?,
        "ask" => {
            let ask = Ask {
                wish: line.place(2)?,
                archive: line.place(3)?,
            };
            writeln!(said, "{}", desk.ask(ask))?;
        }
        "answer" => {
            let answer = answer_of(line.number(4)?)?;
            let is_taken = desk.answer(&line.original(alloc, 2)?, line.place(3)?, answer);
            writeln!(said, "{is_taken}")?;
        }
        "skip" => {
            desk.skip(line.place(2)?);
            writeln!(said, "done")?;
        }
        _ => return Ok(false),
    }
    Ok(true)
}

/// Performs a command about granted wishes.
pub(crate) fn perform(
    alloc: Global,
    desk: &mut WishJobs,
    line: &Line,
    said: &mut String,
) -> Result<()> {
    if perform_job(alloc, desk, line, said)? {
        return Ok(());
    }
    match line.word() {
        "push" => {
            desk.push(line.original(alloc, 2)?, &line.flags(alloc, 3)?)?;
            writeln!(said, "done")?;
        }
        "ended" => take_ended(desk, said)?,
        _ => bail!("no such command"),
    }
    Ok(())
}
