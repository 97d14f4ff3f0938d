//! Calls of TimeMaps in other forms than link-format.
use crate::services::get;
use anyhow::Result;
use format_gates::{FormGate, Forms, NamesForms};
use gate_server::Answers;
use memento_time::{Items, Octets};
use published_index::GateFault;
use refused_calls::{Change, Tried, insist};
use std::alloc::Global;
use timegate::{Reply, Request};
use timemap_formats::{Form, read_listing, write_listing};

const TIMEMAP: &[u8] = b"<http://a.example/>; rel=\"original\",
<http://agg.example/timegate/http://a.example/>; rel=\"timegate\",
<http://agg.example/timemap/link/http://a.example/>; rel=\"self\"; type=\"application/link-format\",
<http://m.example/1>; rel=\"first last memento\"; datetime=\"Sat, 01 Jan 2000 00:00:00 GMT\"
";

/// Answers each request with the same TimeMap.
#[derive(Clone, Copy)]
struct Listed {
    alloc: Global,
}

impl Answers for Listed {
    ghost use Rattle.std.specs.Prelude.{⊤};

    ghost shows = { λ _ _ _. ⊤ };

    ghost follows = { λ _ _. ⊤ };

    ghost may_close = { ⊤ };

    fn answer(&mut self, _request: &Request) -> Result<Reply, GateFault> {
        let Ok(body) = Octets::from_slice(self.alloc, TIMEMAP) else {
            return Err(GateFault::NoMemory);
        };
        Ok(Reply {
            status: 200,
            headers: Items::of(Vec::new(self.alloc)),
            body,
        })
    }

    ghost stays = { λ _. tt };

    ghost goes_on = { λ _ _ _ _ _. tt };
}

/// The forms of the gate.
struct AllForms;

impl NamesForms for AllForms {
    ghost use Rattle.std.specs.Prelude.{true};

    ghost forms = { record { json = true; cdxj = true } };
}

/// The calls. Another answer than that without a refusal counts as a change.
#[derive(Clone, Copy, Debug)]
enum InForms {
    ReadListing,
    WriteListing,
    FormGateReply,
}

const IN_FORMS: [InForms; 3] = [
    InForms::ReadListing,
    InForms::WriteListing,
    InForms::FormGateReply,
];

fn try_read(alloc: Global) -> Tried {
    match read_listing(alloc, TIMEMAP) {
        Ok(Some(_)) => Tried::Answered,
        Ok(None) => Tried::Changed,
        Err(_) => Tried::Refused,
    }
}

fn try_write(alloc: Global) -> Option<Tried> {
    let listing = read_listing(alloc, TIMEMAP).ok()??;
    let is_answered = write_listing(alloc, Form::Cdxj, &listing).is_ok();
    Some(Tried::of(is_answered))
}

/// Asks a gate for a TimeMap in JSON.
fn ask(gate: &mut FormGate<Listed, AllForms>, question: &Request) -> Tried {
    match gate.reply(question) {
        Ok(reply) if reply.status == 200 => Tried::Answered,
        Ok(_) => Tried::Changed,
        Err(_) => Tried::Refused,
    }
}

fn try_reply(alloc: Global) -> Option<Tried> {
    let question = get(alloc, b"/timemap/json/http://a.example/")?;
    let forms = Forms {
        json: true,
        cdxj: true,
    };
    let mut gate: FormGate<Listed, AllForms> = FormGate::new(alloc, Listed { alloc }, forms);
    let tried = ask(&mut gate, &question);
    if tried != Tried::Refused {
        return Some(tried);
    }
    let is_repeated = ask(&mut gate, &question) == Tried::Answered;
    Some(Tried::of_change(Change {
        is_answered: false,
        is_as_before: true,
        is_repeated,
    }))
}

fn try_in_forms(alloc: Global, call: InForms) -> Option<Tried> {
    match call {
        InForms::ReadListing => Some(try_read(alloc)),
        InForms::WriteListing => try_write(alloc),
        InForms::FormGateReply => try_reply(alloc),
    }
}

/// Makes each call, and names it.
pub(crate) fn perform<R: Print + Eprint>(rt: &R, alloc: Global) -> Result<()> {
    for call in IN_FORMS {
        insist(rt, call, || try_in_forms(alloc, call))?;
    }
    Ok(())
}
