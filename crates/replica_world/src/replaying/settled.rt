//! Whether the front of a text says what it says whatever follows it.
ghost use Rattle.std.specs.Prelude.{◌≡◌, ◌<◌, true, length};
ghost use Rattle.replica_world.specs.Fields.{line_of, lines_of, block_of};
ghost use Rattle.replica_world.specs.Script.{command_of, command_at, start_at};
ghost use Rattle.replica_world.specs.Spelled.{form_view};
ghost use Rattle.replica_world.specs.Reading.{IsSettledBy, IsSettled};

use crate::replaying::fields::{LONGEST_BLOCK, LONGEST_LINE, line};
use crate::replaying::form::{Form, read_form};
use text_fields::next_line;

/// What stands at the front of a text.
#[derive(Clone, Copy, Debug, PartialEq, Eq)]
pub(crate) enum Part {
    /// The first line of a script.
    Start,
    /// A command, with its block or its lines.
    Command,
}

/// Whether the first line ends here, or is too long anyway.
fn is_line_settled(text: &[u8]) -> bool
    ensures line { result ≡ true → IsSettledBy line_of text.now }
    ensures some { result ≡ true → 0 < length text.now }
{
    match next_line(text) {
        Some(_) => true,
        None => text.len() > LONGEST_LINE,
    }
}

/// Whether `count` lines end here, or one of them is too long anyway.
fn are_lines_settled(count: u64, text: &[u8]) -> bool
    ensures { result ≡ true → IsSettledBy (lines_of count) text.now }
{
    let mut rest = text;
    for _ in 0..count {
        if !is_line_settled(rest) {
            return false;
        }
        let Some((_, after)) = line(rest) else {
            return true;
        };
        rest = after;
    }
    true
}

/// Whether a block and the byte behind it are here, or it is too long anyway.
fn is_block_settled(len: u64, text: &[u8]) -> bool
    ensures { result ≡ true → IsSettledBy (block_of len) text.now }
{
    len > LONGEST_BLOCK || len < text.len() as u64
}

/// Whether the block or the lines that follow a command's line are here.
fn is_form_settled(form: &Form<'_>, rest: &[u8]) -> bool
    ensures { result ≡ true → IsSettledBy (command_of (form_view form.now)) rest.now }
{
    match form {
        Form::Take(form) => is_block_settled(form.len, rest),
        Form::Receive(_, len) => is_block_settled(*len, rest),
        Form::Ask(form) => are_lines_settled(form.count, rest),
        Form::Map(..)
        | Form::Gate(..)
        | Form::GateAt(..)
        | Form::Send(_)
        | Form::SendFrom(..)
        | Form::Deliver(..)
        | Form::Restart(_) => true,
    }
}

/// Whether a whole command is here, or one that is bad anyway.
fn is_command_settled(text: &[u8]) -> bool
    ensures command { result ≡ true → IsSettledBy command_at text.now }
    ensures some { result ≡ true → 0 < length text.now }
{
    if !is_line_settled(text) {
        return false;
    }
    let Some((line, rest)) = line(text) else {
        return true;
    };
    match read_form(line) {
        Some(form) => is_form_settled(&form, rest),
        None => true,
    }
}

/// Whether the part at the front of a text is whole, so that nothing that follows changes it.
pub(crate) fn is_settled(part: Part, text: &[u8]) -> bool
    ensures settled { result ≡ true → IsSettled part text.now }
    ensures some { result ≡ true → 0 < length text.now }
{
    match part {
        Part::Start => is_line_settled(text),
        Part::Command => is_command_settled(text),
    }
}
