//! Gates that also answer with parts of deltas.
ghost use Rattle.std.specs.Prelude.{◌≡◌, All, IfOk, IfSome, Err, map};
ghost use Rattle.delta_parts.specs.Asks.{Names};
ghost use Rattle.timegate.specs.Reply.{peer_reply};
ghost use Rattle.gate_server.specs.Gates.{GoesOn};
ghost use Rattle.part_gates.specs.Parts.{ShowsPart, ShowsReplyOrPart};

use crate::bases::NamesBase;
use delta_parts::{PartAsk, read_target};
use gate_server::Answers;
use memento_time::{Items, NoMemory, Octets};
use published_index::{Gate, GateFault};
use std::alloc::Global;
use std::marker::PhantomData;
use timegate::{Header, Reply, Request};

/// A gate that also answers with parts of so many bytes of lines, if it has room for parts. Its replies name the base
/// that the type has.
#[derive(Drop)]
pub struct PartGate<B: NamesBase> {
    alloc: Global,
    gate: Gate,
    room: Option<usize>,
    of: PhantomData<B>,
    ghost named: { gate.base ≡ B.base },
}

/// The reply with a text for a peer.
fn part_reply(alloc: Global, request: &Request, text: Vec<u8>) -> Result<Reply, NoMemory>
    ensures { IfOk result (λ reply. reply ≡ peer_reply request.now text.items) }
{
    let mut headers = Vec::new(alloc);
    headers.push((
        Header::ContentType,
        Octets::from_slice(alloc, b"text/plain")?,
    ))?;
    let mut text = text;
    if request.is_head() {
        text.clear();
    }
    Ok(Reply {
        status: 200,
        headers: Items::of(headers),
        body: Octets::of(text),
    })
}

/// Which part a request asks for, by `GET` or `HEAD`; `None` if it asks for none.
fn asked_in(alloc: Global, request: &Request) -> Result<Option<PartAsk>, GateFault>
    ensures asks { IfOk result (λ it. IfSome it (Names request.now.target)) }
    ensures open { result ≡ Err GateFault.Closed → ⊥ }
{
    if !request.is_get() && !request.is_head() {
        return Ok(None);
    }
    match read_target(alloc, request.target.as_slice()) {
        Ok(ask) => Ok(ask),
        Err(_) => Err(GateFault::NoMemory),
    }
}

/// The same gates, in their order, which also answer with parts of so many bytes of lines, or with none.
pub fn part_gates<B: NamesBase>(
    alloc: Global,
    gates: Vec<Gate>,
    room: Option<usize>,
) -> Result<Vec<PartGate<B>>, NoMemory>
    requires { All (λ gate. gate.base ≡ B.base) gates.items }
    ensures gates { IfOk result (λ made. map (λ it. it.gate) made.items ≡ gates.items) }
    ensures room { IfOk result (λ made. All (λ it. it.room ≡ room) made.items) }
{
    let mut made = Vec::with_capacity(alloc, gates.len())?;
    for gate in gates {
        made.push(PartGate::new(alloc, gate, room))?;
    }
    Ok(made)
}

impl<B: NamesBase> PartGate<B> {
    /// A gate that answers with parts of so many bytes of lines, or with none.
    pub fn new(alloc: Global, gate: Gate, room: Option<usize>) -> PartGate<B>
        requires { gate.base ≡ B.base }
        ensures gate { result.gate ≡ gate }
        ensures room { result.room ≡ room }
    {
        PartGate {
            alloc,
            gate,
            room,
            of: PhantomData,
        }
    }

    /// The reply with the part that is asked for.
    fn answer_part(
        &mut self,
        ask: &PartAsk,
        room: usize,
        request: &Request,
    ) -> Result<Reply, GateFault>
        requires { Names request.now.target ask.now }
        ensures shown { IfOk result (ShowsPart self.new.gate request.now) }
        ensures later { GoesOn self.old.gate self.new.gate }
    {
        let text = self.gate.answer_part(ask, room)?;
        match part_reply(self.alloc, request, text) {
            Ok(reply) => Ok(reply),
            Err(_) => Err(GateFault::NoMemory),
        }
    }

    /// The reply to a request: a part of a delta, if it asks for one and there is room for parts; and else that of the
    /// gate inside.
    pub fn reply(&mut self, request: &Request) -> Result<Reply, GateFault>
        ensures shown { IfOk result (ShowsReplyOrPart self.new.gate request.now) }
        ensures later { GoesOn self.old.gate self.new.gate }
    {
        let Some(room) = self.room else {
            return Answers::answer(&mut self.gate, request);
        };
        match asked_in(self.alloc, request)? {
            Some(ask) => self.answer_part(&ask, room, request),
            None => Answers::answer(&mut self.gate, request),
        }
    }
}

impl<B: NamesBase> Answers for PartGate<B> {
    ghost use Rattle.std.specs.Prelude.{⊤};
    ghost use Rattle.gate_server.specs.Gates.{GoesOn};
    ghost use Rattle.gate_server.specs.GateLaws.{gate_goes_on, gate_stays};
    ghost use Rattle.part_gates.specs.Parts.{ShowsReplyOrPart};

    ghost shows = { λ it. ShowsReplyOrPart it.gate };

    ghost follows = { λ it next. GoesOn it.gate next.gate };

    ghost may_close = { ⊤ };

    fn answer(&mut self, request: &Request) -> Result<Reply, GateFault> {
        self.reply(request)
    }

    ghost stays = { λ it. gate_stays it.gate };

    ghost goes_on = { λ it next last. gate_goes_on it.gate next.gate last.gate };
}
