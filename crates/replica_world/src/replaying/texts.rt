//! The texts that commands write.
ghost use Rattle.std.specs.Prelude.{◌≡◌, ◌≢◌, ◌++◌, ◌∷◌, [], IfOk, OnOk, Err, codes, length, string_bytes};
ghost use Rattle.replica_world.specs.Output.{line, number_line, refusal_text, header_line, reply_text, taken_line};
ghost use Rattle.replica_world.specs.Output.{refusal_line, answer_text, accepted_line};

use crate::replaying::output::Output;
use memento_time::{NoMemory, Octets};
use replica_events::{Event, Refused, Said};
use std::alloc::Global;
use timegate::{Header, Reply};
use timemap_reader::Page;

/// The line of a refused command.
pub(crate) fn refusal_text(alloc: Global, why: &str) -> Result<Output, NoMemory>
    ensures { IfOk result (λ text. text ≡ refusal_text why.now) }
{
    let text = format!(in alloc; "refused {why}\n")?;
    Ok(Output::of_lines(alloc, text.into_bytes()))
}

/// The line of a refused event.
fn refusal_line(alloc: Global, why: Refused) -> Result<Vec<u8>, NoMemory>
    ensures { IfOk result (λ text. text.items ≡ refusal_line why) }
{
    let text = format!(in alloc; "refused {why}\n")?;
    Ok(text.into_bytes())
}

/// The line of a page that was taken.
pub(crate) fn taken_line(alloc: Global, page: &Page) -> Result<Vec<u8>, NoMemory>
    ensures { IfOk result (λ text. text.items ≡ taken_line page.now) }
{
    let mementos = page.mementos.as_slice().len();
    let further = page.further.as_slice().len();
    let dropped = page.dropped;
    let text = format!(in alloc; "taken {mementos} {further} {dropped}\n")?;
    Ok(text.into_bytes())
}

/// A line with a word and a number.
fn number_line(alloc: Global, word: &str, number: u64) -> Result<Vec<u8>, NoMemory>
    ensures { IfOk result (λ text. text.items ≡ number_line word.now number) }
{
    let text = format!(in alloc; "{word} {number}\n")?;
    Ok(text.into_bytes())
}

fn write_header(out: &mut Vec<u8>, header: &(Header, Octets)) -> Result<(), NoMemory>
    ensures { OnOk result (out.new.items ≡ out.old.items ++ header_line header.now) }
{
    let (name, value) = header;
    out.extend_from_slice(name.name().as_bytes())?;
    out.extend_from_slice(b": ")?;
    out.extend_from_slice(value.as_slice())?;
    out.push(b'\n')?;
    Ok(())
}

/// The lines of a reply before its body: its status, its headers in order, and the body's length.
fn reply_lines(alloc: Global, reply: &Reply) -> Result<Vec<u8>, NoMemory>
    ensures { IfOk result (λ lines. lines.items ++ reply.now.body ≡ reply_text reply.now) }
{
    let mut out = number_line(alloc, "reply", u64::from(reply.status))?;
    for header in reply.headers.as_slice() {
        write_header(&mut out, header)?;
    }
    let length = number_line(alloc, "body", reply.body.as_slice().len() as u64)?;
    out.extend_from_slice(&length)?;
    Ok(out)
}

/// A reply, with its body as it is.
fn reply_text(alloc: Global, reply: Reply) -> Result<Output, NoMemory>
    ensures { IfOk result (λ text. text ≡ reply_text reply) }
{
    let lines = reply_lines(alloc, &reply)?;
    Ok(Output::with_body(lines, reply.body))
}

/// The line of an event whose answer has neither a number nor a reply.
pub(crate) fn accepted_line(event: &Event) -> &'static [u8]
    ensures { result.now ≡ accepted_line event.now }
{
    match event {
        Event::Deliver(..) => b"joined\n",
        Event::Receive(..) => b"received\n",
        Event::Restart(_) => b"restarted\n",
        Event::Take(..) | Event::Send(_) | Event::SendFrom(..) | Event::Ask(..) => b"",
    }
}

/// What is written for an answer. Nothing if memory ran out.
pub(crate) fn answer_text(
    alloc: Global,
    accepted: &[u8],
    answer: Result<Said, Refused>,
) -> Result<Output, NoMemory>
    ensures text { IfOk result (λ text. text ≡ answer_text accepted.now answer) }
    ensures memory { OnOk result (answer ≢ Err Refused.NoMemory) }
{
    let lines = match answer {
        Ok(Said::Replied(reply)) => return reply_text(alloc, reply),
        Ok(Said::Taken | Said::Joined | Said::Restarted) => Vec::from_slice(alloc, accepted)?,
        Ok(Said::Sent(count)) => number_line(alloc, "sent", count as u64)?,
        Err(Refused::NoMemory) => return Err(NoMemory),
        Err(why) => refusal_line(alloc, why)?,
    };
    Ok(Output::of_lines(alloc, lines))
}
