//! Replays a script: reads its commands, one on each line, and writes what they say.

mod command;
mod devices;
pub(crate) mod fault;
mod fields;
mod form;
pub(crate) mod laws;
mod output;
mod perform;
pub(crate) mod run;
mod settled;
mod start;
mod texts;
pub(crate) mod watched;
mod window;
