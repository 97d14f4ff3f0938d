//! Gates that also answer in other forms than link-format.
ghost use Rattle.std.specs.Prelude.{◌≡◌, IfOk, IfSome, option_map, Err};
ghost use Rattle.timegate.specs.declared.reply.Reply.{Reply as Answered};
ghost use Rattle.timegate.specs.Route.{is_head};
ghost use Rattle.text_fields.specs.Parts.{behind};
ghost use Rattle.format_gates.specs.Converted.{asked_in, form_at, as_link, form_reply, unread_reply, listing_reply};
ghost use Rattle.format_gates.specs.Converted.{IsConverted, RepliesBy};

use crate::naming::NamesForms;
use gate_server::Answers;
use memento_time::{Items, NoMemory, Octets};
use published_index::GateFault;
use std::alloc::Global;
use std::marker::PhantomData;
use text_fields::behind;
use timegate::{Header, Reply, Request};
use timemap_formats::{Form, Forms, Listing, read_listing, write_listing};

/// A gate that also answers in the forms that the type has, by what the gate inside says.
#[derive(Drop)]
pub struct FormGate<G, F: NamesForms> {
    alloc: Global,
    gate: G,
    forms: Forms,
    of: PhantomData<F>,
    ghost named: { forms ≡ F.forms },
}

/// The form and what the target names, if the form is answered and the target asks in it.
fn asked_in(form: Form, is_answered: bool, target: &[u8]) -> Option<(Form, &[u8])>
    ensures { option_map (λ asked. (asked.0, asked.1.now)) result ≡ asked_in form is_answered target.now }
{
    if !is_answered {
        return None;
    }
    let rest = behind(form.front(), target)?;
    Some((form, rest))
}

/// In which of the forms the target asks for a TimeMap or a page, and what it names.
#[tactic(auto, unfolding(crate::specs::Converted::form_at))]
fn form_at(forms: Forms, target: &[u8]) -> Option<(Form, &[u8])>
    ensures { option_map (λ asked. (asked.0, asked.1.now)) result ≡ form_at forms target.now }
{
    match asked_in(Form::Json, forms.json, target) {
        Some(asked) => Some(asked),
        None => asked_in(Form::Cdxj, forms.cdxj, target),
    }
}

/// The request for the same in link-format.
fn as_link(alloc: Global, rest: &[u8], request: &Request) -> Result<Request, NoMemory>
    ensures { IfOk result (λ asked. asked ≡ as_link rest.now request.now) }
{
    let mut target = Vec::from_slice(alloc, b"/timemap/link/")?;
    target.extend_from_slice(rest)?;
    Ok(Request {
        method: request.method.try_clone()?,
        target: Octets::of(target),
        asked: Items::of(Vec::new(alloc)),
    })
}

/// A text in the form.
fn form_reply(alloc: Global, form: Form, text: Vec<u8>) -> Result<Reply, NoMemory>
    ensures { IfOk result (λ reply. reply ≡ form_reply form text.items) }
{
    let mut headers = Vec::new(alloc);
    headers.push((
        Header::ContentType,
        Octets::from_slice(alloc, form.media_type())?,
    ))?;
    Ok(Reply {
        status: 200,
        headers: Items::of(headers),
        body: Octets::of(text),
    })
}

/// The reply where a text can't be read.
fn unread_reply(alloc: Global) -> Result<Reply, NoMemory>
    ensures { IfOk result (λ reply. reply ≡ unread_reply) }
{
    let mut headers = Vec::new(alloc);
    headers.push((
        Header::ContentType,
        Octets::from_slice(alloc, b"text/plain")?,
    ))?;
    Ok(Reply {
        status: 500,
        headers: Items::of(headers),
        body: Octets::from_slice(alloc, b"not convertible\n")?,
    })
}

/// What a text lists, in the form, if it is known.
fn listing_reply(alloc: Global, form: Form, listing: &Option<Listing>) -> Result<Reply, NoMemory>
    ensures { IfOk result (λ reply. reply ≡ listing_reply form listing.now) }
{
    match listing {
        Some(listing) => form_reply(alloc, form, write_listing(alloc, form, listing)?),
        None => unread_reply(alloc),
    }
}

/// What is made of the reply to the request for the same in link-format.
fn converted(alloc: Global, form: Form, request: &Request, inner: Reply) -> Result<Reply, NoMemory>
    ensures { IfOk result (IsConverted form request.now inner) }
{
    if inner.status != 200 {
        return Ok(inner);
    }
    if request.is_head() {
        return form_reply(alloc, form, Vec::new(alloc));
    }
    let listing = read_listing(alloc, inner.body.as_slice())?;
    listing_reply(alloc, form, &listing)
}

/// As `converted`, with a gate's fault.
fn converted_or_fault(
    alloc: Global,
    form: Form,
    request: &Request,
    inner: Reply,
) -> Result<Reply, GateFault>
    ensures made { IfOk result (IsConverted form request.now inner) }
    ensures open { result ≡ Err GateFault.Closed → ⊥ }
{
    match converted(alloc, form, request, inner) {
        Ok(reply) => Ok(reply),
        Err(_) => Err(GateFault::NoMemory),
    }
}

impl<G: Answers, F: NamesForms> FormGate<G, F> {
    /// A gate that answers in these forms too.
    pub fn new(alloc: Global, gate: G, forms: Forms) -> FormGate<G, F>
        requires { forms ≡ F.forms }
        ensures forms { result.forms ≡ forms }
        ensures gate { result.gate ≡ gate }
    {
        FormGate {
            alloc,
            gate,
            forms,
            of: PhantomData,
        }
    }

    /// The reply to a request for what `rest` names, in the form.
    fn answer_in(&mut self, form: Form, rest: &[u8], request: &Request) -> Result<Reply, GateFault>
        ensures made { IfOk result (λ made. (inner : Answered) × G.shows self.new.gate (as_link rest.now request.now) inner
            × IsConverted form request.now inner made) }
        ensures later { G.follows self.old.gate self.new.gate }
        ensures closed { result ≡ Err GateFault.Closed → G.may_close }
    {
        let Ok(asked) = as_link(self.alloc, rest, request) else {
            return Err(GateFault::NoMemory);
        };
        let inner = self.gate.answer(&asked)?;
        converted_or_fault(self.alloc, form, request, inner)
    }

    /// The reply to a request for what `rest` names, in the form, or `None` if the gate inside would rather answer
    /// later.
    fn answer_in_or_hold(
        &mut self,
        form: Form,
        rest: &[u8],
        request: &Request,
        is_held: bool,
    ) -> Result<Option<Reply>, GateFault>
        ensures made { IfOk result (λ it. IfSome it (λ made. (inner : Answered)
            × G.shows self.new.gate (as_link rest.now request.now) inner × IsConverted form request.now inner made)) }
        ensures later { G.follows self.old.gate self.new.gate }
        ensures closed { result ≡ Err GateFault.Closed → G.may_close }
    {
        let Ok(asked) = as_link(self.alloc, rest, request) else {
            return Err(GateFault::NoMemory);
        };
        let Some(inner) = self.gate.answer_or_hold(&asked, is_held)? else {
            return Ok(None);
        };
        let reply = converted_or_fault(self.alloc, form, request, inner)?;
        Ok(Some(reply))
    }

    /// The reply to a request: in a form, what is made of the TimeMap in link-format; and else that of the gate inside.
    pub fn reply(&mut self, request: &Request) -> Result<Reply, GateFault>
        ensures shown { IfOk result
            (RepliesBy (G.shows self.new.gate) (form_at F.forms request.now.target) request.now) }
        ensures later { G.follows self.old.gate self.new.gate }
        ensures closed { result ≡ Err GateFault.Closed → G.may_close }
    {
        match form_at(self.forms, request.target.as_slice()) {
            Some((form, rest)) => self.answer_in(form, rest, request),
            None => self.gate.answer(request),
        }
    }

    /// As `reply`, or `None` if the gate inside would rather answer later.
    pub fn reply_or_hold(
        &mut self,
        request: &Request,
        is_held: bool,
    ) -> Result<Option<Reply>, GateFault>
        ensures shown { IfOk result
            (λ it. IfSome it (RepliesBy (G.shows self.new.gate) (form_at F.forms request.now.target) request.now)) }
        ensures later { G.follows self.old.gate self.new.gate }
        ensures closed { result ≡ Err GateFault.Closed → G.may_close }
    {
        match form_at(self.forms, request.target.as_slice()) {
            Some((form, rest)) => self.answer_in_or_hold(form, rest, request, is_held),
            None => self.gate.answer_or_hold(request, is_held),
        }
    }
}

impl<G: Answers, F: NamesForms> Answers for FormGate<G, F> {
    ghost use Rattle.format_gates.specs.Converted.{ShowsInForms};

    ghost shows = { λ it. ShowsInForms (G.shows it.gate) F.forms };

    ghost follows = { λ it next. G.follows it.gate next.gate };

    ghost may_close = { G.may_close };

    fn answer(&mut self, request: &Request) -> Result<Reply, GateFault> {
        self.reply(request)
    }

    fn answer_or_hold(
        &mut self,
        request: &Request,
        is_held: bool,
    ) -> Result<Option<Reply>, GateFault> {
        self.reply_or_hold(request, is_held)
    }

    ghost stays = { λ it. G.stays it.gate };

    ghost goes_on = { λ it next last. G.goes_on it.gate next.gate last.gate };
}
