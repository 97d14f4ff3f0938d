//! Scripts: tests that are told, and not written out as code. A script is a text with a step in each line, which small
//! functions take (`tables::follow`): a step costs the prover nothing, while a call in the body of a test costs it a
//! second.
//!
//! A line is `verb name how second: wanted`. A step has the parts that it needs, from the left, so that `late: 2` says
//! that two are late.
use anyhow::Result;
use std::alloc::Global;
use std::fmt::Debug;

/// A step of a script.
#[derive(Clone, Copy)]
pub struct Step<'a> {
    pub verb: &'a str,
    pub name: &'a str,
    pub how: &'a str,
    pub second: &'a str,
    pub wanted: &'a str,
}

/// What stands in front of a mark, and what stands behind it: nothing where there is no mark.
fn cut<'a>(text: &'a str, mark: &str) -> (&'a str, &'a str) {
    text.split_once(mark).unwrap_or((text, ""))
}

/// The step that a line is.
pub fn read_step<'a>(line: &'a str) -> Step<'a> {
    let (what, wanted) = cut(line, ": ");
    let (verb, rest) = cut(what, " ");
    let (name, rest) = cut(rest, " ");
    let (how, second) = cut(rest, " ");
    Step {
        verb,
        name,
        how,
        second,
        wanted,
    }
}

/// Whether a value is the wanted one, as it is printed for a programmer.
pub fn is_told<T: Debug + Drop>(alloc: Global, value: T, wanted: &str) -> Result<bool> {
    let told = format!(in alloc; "{value:?}")?;
    Ok(told.as_str() == wanted)
}
