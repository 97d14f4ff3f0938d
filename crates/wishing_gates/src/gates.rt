//! Gates that note what their readers ask for.
ghost use Rattle.std.specs.Prelude.{◌≡◌};

use crate::book::WishBook;
use crate::requests::{asked_original, named};
use gate_server::Answers;
use memento_time::{Original, second_now};
use published_index::GateFault;
use std::alloc::AllocGlobal;
use std::time::Clock;
use timegate::{Reply, Request};
use wish_list::Decision;

/// A gate that notes in a book which originals its readers ask for. It answers what the gate inside answers.
#[derive(Drop)]
pub struct WishingGate<G, R> {
    rt: R,
    gate: G,
    book: WishBook,
}

impl<G: Answers, R: Clock + AllocGlobal + Drop> WishingGate<G, R> {
    /// A gate that notes in this book what is asked of the gate inside.
    pub fn new(rt: R, gate: G, book: WishBook) -> WishingGate<G, R>
        ensures gate { result.gate ≡ gate }
        ensures book { result.book ≡ book }
    {
        WishingGate { rt, gate, book }
    }

    /// Notes what was asked for. A 404 to a request for a TimeGate or a TimeMap says that nothing of its original is
    /// shown (`absent_where_nothing_is_shown`); 200 and 302 say that something is. Returns whether nothing is shown of
    /// an original for which there is a wish now, or will be if this is asked once more.
    fn note(&self, request: &Request, reply: &Reply) -> bool {
        if !self.book.is_open() {
            return false;
        }
        match reply.status {
            404 => self.note_asked(request, false),
            200 | 302 if !self.is_settled(request) => {
                let _ = self.note_asked(request, true);
                false
            }
            _ => false,
        }
    }

    /// Notes the original that a request asks for. Returns whether there is a wish for it now, or may be if it is noted
    /// once more: another thread has the book.
    fn note_asked(&self, request: &Request, is_shown: bool) -> bool {
        let Ok(Some(original)) = asked_original(self.rt.alloc(), request) else {
            return false;
        };
        let decision = self.book.note(original, is_shown, second_now(&self.rt));
        matches!(decision, None | Some(Decision::Added | Decision::Waits))
    }

    /// Whether there may be a wish for the original that a request asks for.
    fn may_be_wished(&self, request: &Request) -> bool {
        match asked_original(self.rt.alloc(), request) {
            Ok(Some(original)) => self.book.may_be_wished(original.as_original()),
            _ => false,
        }
    }

    /// Whether the book knows the original that the target names as replies do, and needs no wish for it, or can't be
    /// asked now. This is on the way of every reader, and spares nearly all of them that the target is read as a URL
    /// once more.
    fn is_settled(&self, request: &Request) -> bool {
        let Some(named) = named(request.target.as_slice()) else {
            return false;
        };
        let Ok(text) = Original::new(self.rt.alloc(), named) else {
            return false;
        };
        let settled = self.book.is_settled(&text, second_now(&self.rt));
        settled.unwrap_or(true)
    }
}

impl<G: Answers, R: Clock + AllocGlobal + Drop> Answers for WishingGate<G, R> {
    ghost shows = { λ it. G.shows it.gate };

    ghost follows = { λ it next. G.follows it.gate next.gate };

    ghost may_close = { G.may_close };

    fn answer(&mut self, request: &Request) -> Result<Reply, GateFault> {
        let reply = self.gate.answer(request)?;
        let _ = self.note(request, &reply);
        Ok(reply)
    }

    /// A request that is held is asked anew only once there is no wish for its original.
    fn answer_or_hold(
        &mut self,
        request: &Request,
        is_held: bool,
    ) -> Result<Option<Reply>, GateFault> {
        if is_held && self.may_be_wished(request) {
            return Ok(None);
        }
        let Some(reply) = self.gate.answer_or_hold(request, is_held)? else {
            return Ok(None);
        };
        if self.note(request, &reply) {
            return Ok(None);
        }
        Ok(Some(reply))
    }

    ghost stays = { λ it. G.stays it.gate };

    ghost goes_on = { λ it next last. G.goes_on it.gate next.gate last.gate };
}
