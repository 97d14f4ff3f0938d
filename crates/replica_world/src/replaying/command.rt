//! The commands of a script: a line, and the block or the lines that follow it.
ghost use Rattle.std.specs.Prelude.{◌≡◌, ◌++◌, ◌∷◌, [], codes, IfOk};
ghost use Rattle.std.specs.Option.{option_map};
ghost use Rattle.replica_world.specs.Script.{get, step_and_rest, command_of, command_at};
ghost use Rattle.replica_world.specs.Spelled.{command_view, form_view, take_form_view, ask_form_view};
ghost use Rattle.replica_world.specs.Form.{Take as TakeLine, Ask as AskLine, Receive as ReceiveLine};

use crate::replaying::fields::{block, line, lines};
use crate::replaying::form::{AskForm, Form, TakeForm, read_form};
use memento_time::{Items, NoMemory, Octets};
use replica_events::Event;
use std::alloc::Global;
use timegate::Request;

/// A command, with the block or the lines that follow its line.
#[derive(Debug, Drop)]
pub enum Command<'a> {
    /// A page to be read, and to be taken as a harvest.
    Take(Taking<'a>),
    /// An event of the world.
    Step(Event),
}

/// The body of an archive's page, and the harvest to make of it: a whole one or a part.
#[derive(Clone, Copy, Debug)]
pub struct Taking<'a> {
    pub is_whole: bool,
    pub replica: u64,
    pub archive: &'a [u8],
    pub revision: u64,
    pub address: &'a [u8],
    pub body: &'a [u8],
    pub original: &'a [u8],
}

/// A `GET` request for an original on this route.
fn get(
    alloc: Global,
    route: &[u8],
    original: &[u8],
    asked: Vec<Octets>,
) -> Result<Request, NoMemory>
    ensures { IfOk result (λ request. request ≡ get (route.now ++ original.now) asked.items) }
{
    let mut target = Vec::from_slice(alloc, route)?;
    target.extend_from_slice(original)?;
    Ok(Request {
        method: Octets::of(Vec::from_slice(alloc, b"GET")?),
        target: Octets::of(target),
        asked: Items::of(asked),
    })
}

/// An event, and the text after its command.
fn step(event: Event, rest: &[u8]) -> Option<(Command<'_>, &[u8])>
    ensures { option_map (λ p. (command_view p.0, p.1.now)) result ≡ step_and_rest event rest.now }
{
    Some((Command::Step(event), rest))
}

/// A `take` or a `takepart`, with its block.
#[tactic(auto, unfolding(crate::specs::Script::command_of))]
fn take<'a>(form: &TakeForm<'a>, rest: &'a [u8]) -> Option<(Command<'a>, &'a [u8])>
    ensures { option_map (λ p. (command_view p.0, p.1.now)) result
        ≡ command_of (TakeLine (take_form_view form.now)) rest.now }
{
    let (body, rest) = block(form.len, rest)?;
    let taking = Taking {
        is_whole: form.is_whole,
        replica: form.replica,
        archive: form.archive,
        revision: form.revision,
        address: form.address,
        body,
        original: form.original,
    };
    Some((Command::Take(taking), rest))
}

/// An `ask`, with its lines.
#[tactic(auto, unfolding(crate::specs::Script::command_of))]
fn ask<'a>(
    alloc: Global,
    form: &AskForm<'_>,
    rest: &'a [u8],
) -> Result<Option<(Command<'a>, &'a [u8])>, NoMemory>
    ensures { IfOk result (λ found. option_map (λ p. (command_view p.0, p.1.now)) found
        ≡ command_of (AskLine (ask_form_view form.now)) rest.now) }
{
    let Some((asked, rest)) = lines(alloc, form.count, rest)? else {
        return Ok(None);
    };
    let request = Request {
        method: Octets::of(Vec::from_slice(alloc, form.method)?),
        target: Octets::of(Vec::from_slice(alloc, form.target)?),
        asked: Items::of(asked),
    };
    Ok(step(Event::Ask(form.replica as usize, request), rest))
}

/// A `gate`, with the datetime that its line asks for.
fn gate_at(alloc: Global, original: &[u8], asked: &[u8]) -> Result<Request, NoMemory>
    ensures { IfOk result (λ request. request
        ≡ get (codes "/timegate/" ++ original.now) (asked.now ∷ [])) }
{
    let mut values = Vec::new(alloc);
    values.push(Octets::of(Vec::from_slice(alloc, asked)?))?;
    get(alloc, b"/timegate/", original, values)
}

/// A `receive`, with its block.
#[tactic(auto, unfolding(crate::specs::Script::command_of))]
fn receive<'a>(
    alloc: Global,
    replica: u64,
    len: u64,
    rest: &'a [u8],
) -> Result<Option<(Command<'a>, &'a [u8])>, NoMemory>
    ensures { IfOk result (λ found. option_map (λ p. (command_view p.0, p.1.now)) found
        ≡ command_of (ReceiveLine replica len) rest.now) }
{
    let Some((body, rest)) = block(len, rest) else {
        return Ok(None);
    };
    let bytes = Octets::of(Vec::from_slice(alloc, body)?);
    Ok(step(Event::Receive(replica as usize, bytes), rest))
}

/// The command of a line, with the block or the lines that follow it, and the text after them. `None` if these are cut
/// short.
#[tactic(auto, unfolding(crate::specs::Script::command_of))]
fn command_of<'a>(
    alloc: Global,
    form: &Form<'a>,
    rest: &'a [u8],
) -> Result<Option<(Command<'a>, &'a [u8])>, NoMemory>
    ensures { IfOk result (λ found. option_map (λ p. (command_view p.0, p.1.now)) found
        ≡ command_of (form_view form.now) rest.now) }
{
    match form {
        Form::Take(form) => Ok(take(form, rest)),
        Form::Map(replica, original) => {
            let request = get(alloc, b"/timemap/link/", original, Vec::new(alloc))?;
            Ok(step(Event::Ask(*replica as usize, request), rest))
        }
        Form::Gate(replica, original) => {
            let request = get(alloc, b"/timegate/", original, Vec::new(alloc))?;
            Ok(step(Event::Ask(*replica as usize, request), rest))
        }
        Form::GateAt(replica, original, asked) => {
            let request = gate_at(alloc, original, asked)?;
            Ok(step(Event::Ask(*replica as usize, request), rest))
        }
        Form::Ask(form) => ask(alloc, form, rest),
        Form::Send(replica) => Ok(step(Event::Send(*replica as usize), rest)),
        Form::SendFrom(replica, merges) => {
            Ok(step(Event::SendFrom(*replica as usize, *merges), rest))
        }
        Form::Deliver(replica, message) => {
            Ok(step(Event::Deliver(*replica as usize, *message as usize), rest))
        }
        Form::Receive(replica, len) => receive(alloc, *replica, *len, rest),
        Form::Restart(replica) => Ok(step(Event::Restart(*replica as usize), rest)),
    }
}

/// The command at the front of a text, and the text after it. `None` if the line is bad.
#[tactic(auto, unfolding(crate::specs::Script::command_at))]
pub(crate) fn command_at(
    alloc: Global,
    text: &[u8],
) -> Result<Option<(Command<'_>, &[u8])>, NoMemory>
    ensures { IfOk result (λ found. option_map (λ p. (command_view p.0, p.1.now)) found ≡ command_at text.now) }
{
    let Some((line, rest)) = line(text) else {
        return Ok(None);
    };
    match read_form(line) {
        Some(form) => command_of(alloc, &form, rest),
        None => Ok(None),
    }
}
