//! The lines of commands, and what each says. `replay` describes how they are written.
ghost use Rattle.std.specs.Prelude.{◌≡◌};
ghost use Rattle.std.specs.Option.{option_map};
ghost use Rattle.replica_world.specs.Form.{take_of, map_of, gate_of, ask_of, send_of, send_from_of};
ghost use Rattle.replica_world.specs.Form.{deliver_of, receive_of, restart_of};
ghost use Rattle.replica_world.specs.Form.{form_by_word, form_of};
ghost use Rattle.replica_world.specs.Spelled.{form_view};

use crate::replaying::fields::{are_visible, number_field, word_field};
use text_fields::{next_field, read_decimal};

/// The most values of `Accept-Datetime` that an `ask` can give.
const MOST_ASKED: u64 = 16;

/// What the line of a command says.
#[derive(Clone, Copy, Debug)]
pub(crate) enum Form<'a> {
    Take(TakeForm<'a>),
    Map(u64, &'a [u8]),
    Gate(u64, &'a [u8]),
    /// A `gate` with the datetime that is asked for, after the original.
    GateAt(u64, &'a [u8], &'a [u8]),
    Ask(AskForm<'a>),
    Send(u64),
    SendFrom(u64, u64),
    Deliver(u64, u64),
    Receive(u64, u64),
    Restart(u64),
}

/// `take I ARCHIVE REVISION PAGEURL LENGTH ORIGINAL`, which takes a whole harvest, or the same after `takepart`, which
/// takes a part harvest.
#[derive(Clone, Copy, Debug)]
pub(crate) struct TakeForm<'a> {
    pub(crate) is_whole: bool,
    pub(crate) replica: u64,
    pub(crate) archive: &'a [u8],
    pub(crate) revision: u64,
    pub(crate) address: &'a [u8],
    pub(crate) len: u64,
    pub(crate) original: &'a [u8],
}

/// `ask I METHOD COUNT TARGET`.
#[derive(Clone, Copy, Debug)]
pub(crate) struct AskForm<'a> {
    pub(crate) replica: u64,
    pub(crate) method: &'a [u8],
    pub(crate) count: u64,
    pub(crate) target: &'a [u8],
}

#[tactic(auto, unfolding(crate::specs::Form::take_of))]
fn take(is_whole: bool, fields: &[u8]) -> Option<Form<'_>>
    ensures { option_map form_view result ≡ take_of is_whole fields.now }
{
    let (replica, fields) = number_field(fields)?;
    let (archive, fields) = word_field(fields)?;
    let (revision, fields) = number_field(fields)?;
    let (address, fields) = word_field(fields)?;
    let (len, original) = number_field(fields)?;
    Some(Form::Take(TakeForm {
        is_whole,
        replica,
        archive,
        revision,
        address,
        len,
        original,
    }))
}

#[tactic(auto, unfolding(crate::specs::Form::map_of))]
fn map(fields: &[u8]) -> Option<Form<'_>>
    ensures { option_map form_view result ≡ map_of fields.now }
{
    let (replica, original) = number_field(fields)?;
    Some(Form::Map(replica, original))
}

#[tactic(auto, unfolding(crate::specs::Form::gate_of))]
fn gate(fields: &[u8]) -> Option<Form<'_>>
    ensures { option_map form_view result ≡ gate_of fields.now }
{
    let (replica, fields) = number_field(fields)?;
    match next_field(fields) {
        None => Some(Form::Gate(replica, fields)),
        Some((original, asked)) => Some(Form::GateAt(replica, original, asked)),
    }
}

#[tactic(auto, unfolding(crate::specs::Form::ask_of))]
fn ask(fields: &[u8]) -> Option<Form<'_>>
    ensures { option_map form_view result ≡ ask_of fields.now }
{
    let (replica, fields) = number_field(fields)?;
    let (method, fields) = word_field(fields)?;
    let (count, target) = number_field(fields)?;
    if !are_visible(method) || count > MOST_ASKED {
        return None;
    }
    Some(Form::Ask(AskForm {
        replica,
        method,
        count,
        target,
    }))
}

#[tactic(auto, unfolding(crate::specs::Form::send_of))]
fn send(fields: &[u8]) -> Option<Form<'_>>
    ensures { option_map form_view result ≡ send_of fields.now }
{
    Some(Form::Send(read_decimal(fields)?))
}

#[tactic(auto, unfolding(crate::specs::Form::send_from_of))]
fn send_from(fields: &[u8]) -> Option<Form<'_>>
    ensures { option_map form_view result ≡ send_from_of fields.now }
{
    let (replica, merges) = number_field(fields)?;
    Some(Form::SendFrom(replica, read_decimal(merges)?))
}

#[tactic(auto, unfolding(crate::specs::Form::deliver_of))]
fn deliver(fields: &[u8]) -> Option<Form<'_>>
    ensures { option_map form_view result ≡ deliver_of fields.now }
{
    let (replica, message) = number_field(fields)?;
    Some(Form::Deliver(replica, read_decimal(message)?))
}

#[tactic(auto, unfolding(crate::specs::Form::receive_of))]
fn receive(fields: &[u8]) -> Option<Form<'_>>
    ensures { option_map form_view result ≡ receive_of fields.now }
{
    let (replica, len) = number_field(fields)?;
    Some(Form::Receive(replica, read_decimal(len)?))
}

#[tactic(auto, unfolding(crate::specs::Form::restart_of))]
fn restart(fields: &[u8]) -> Option<Form<'_>>
    ensures { option_map form_view result ≡ restart_of fields.now }
{
    Some(Form::Restart(read_decimal(fields)?))
}

/// The form that a line names by its first word.
#[tactic(auto, unfolding(crate::specs::Form::form_by_word))]
fn form_by_word<'a>(word: &[u8], fields: &'a [u8]) -> Option<Form<'a>>
    ensures { option_map form_view result ≡ form_by_word word.now fields.now }
{
    if word == b"take".as_slice() {
        take(true, fields)
    } else if word == b"takepart".as_slice() {
        take(false, fields)
    } else if word == b"map".as_slice() {
        map(fields)
    } else if word == b"gate".as_slice() {
        gate(fields)
    } else if word == b"ask".as_slice() {
        ask(fields)
    } else if word == b"send".as_slice() {
        send(fields)
    } else if word == b"sendfrom".as_slice() {
        send_from(fields)
    } else if word == b"deliver".as_slice() {
        deliver(fields)
    } else if word == b"receive".as_slice() {
        receive(fields)
    } else if word == b"restart".as_slice() {
        restart(fields)
    } else {
        None
    }
}

/// What a line says. `None` if it isn't a command.
#[tactic(auto, unfolding(crate::specs::Form::form_of))]
pub(crate) fn read_form(line: &[u8]) -> Option<Form<'_>>
    ensures { option_map form_view result ≡ form_of line.now }
{
    let (word, fields) = next_field(line)?;
    form_by_word(word, fields)
}
