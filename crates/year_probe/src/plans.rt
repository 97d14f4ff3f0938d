//! The calls of a schedule.
use crate::lines::Line;
use anyhow::{Result, bail};
use harvest_schedule::{Schedule, Turn, Verdict};

/// The turn whose archive and original stand behind the word.
fn turn_of(line: &Line) -> Result<Turn> {
    Ok(Turn {
        archive: line.place(2)?,
        original: line.place(3)?,
    })
}

/// How a walk ended: `KIND UNTIL`, from this place on.
fn verdict_of(line: &Line, place: usize) -> Result<Verdict> {
    let until = line.number(place.saturating_add(1))?;
    match line.number(place)? {
        0 => Ok(Verdict::Answered),
        1 => Ok(Verdict::There),
        2 => Ok(Verdict::Failed),
        3 => Ok(Verdict::Unknown),
        4 => Ok(Verdict::Busy { until }),
        5 => Ok(Verdict::Later { until }),
        _ => bail!("no verdict"),
    }
}

/// Performs a command about the rounds' jobs. Returns whether the line has one.
fn perform_job(plan: &mut Schedule, line: &Line, said: &mut String) -> Result<bool> {
    match line.word() {
        "begin" => writeln!(said, "{}", plan.begin(line.place(2)?))?,
        "offer" => writeln!(said, "{:?}", plan.offer(line.number(2)?))?,
        "hand" => writeln!(
            said,
            "{}",
            plan.hand_out(turn_of(line)?, line.number(4)?).is_some()
        )?,
        "pass" => writeln!(said, "{}", plan.pass_over(turn_of(line)?))?,
        "done" => {
            let verdict = verdict_of(line, 5)?;
            writeln!(
                said,
                "{}",
                plan.done(turn_of(line)?, verdict, line.number(4)?)
            )?;
        }
        _ => return Ok(false),
    }
    Ok(true)
}

/// Performs a command about walks beyond the list. Returns whether the line has one.
fn perform_walk(plan: &mut Schedule, line: &Line, said: &mut String) -> Result<bool> {
    match line.word() {
        "walk" => {
            let permit = plan.begin_walk(line.place(2)?, line.number(3)?, line.flag(4)?);
            let is_begun = permit.is_some();
            writeln!(said, "{is_begun}")?;
        }
        "walked" => {
            let verdict = verdict_of(line, 4)?;
            let is_out = plan.end_walk(line.place(2)?, verdict, line.number(3)?);
            writeln!(said, "{is_out}")?;
        }
        _ => return Ok(false),
    }
    Ok(true)
}

/// Says something of a schedule that it is asked for. Returns whether the line asks for it.
fn tell(plan: &Schedule, line: &Line, said: &mut String) -> Result<bool> {
    match line.word() {
        "over" => writeln!(said, "{}", plan.is_over(line.number(2)?))?,
        "next" => writeln!(said, "{:?}", plan.next_time(line.number(2)?))?,
        "left" => writeln!(said, "{}", plan.left(line.place(2)?))?,
        "mood" => writeln!(said, "{:?}", plan.mood(line.place(2)?))?,
        "dormant" => writeln!(said, "{}", plan.is_dormant(line.place(2)?))?,
        _ => return Ok(false),
    }
    Ok(true)
}

/// Performs a command about a schedule. Returns whether the line has one.
pub(crate) fn perform(plan: &mut Schedule, line: &Line, said: &mut String) -> Result<bool> {
    Ok(perform_job(plan, line, said)? || perform_walk(plan, line, said)? || tell(plan, line, said)?)
}
