//! Answers requests behind a lock.
ghost use Rattle.std.specs.Prelude.{◌≡◌, IfOk, IfSome};

use published_index::{Gate, GateFault};
use timegate::{Reply, Request};

/// Answers requests. Of a value behind a lock the type alone is known, so the type says which replies a value may give,
/// and what may become of it.
pub trait Answers: Drop {
    ghost use Rattle.std.specs.Prelude.{◌≡◌, IfOk, IfSome};
    ghost use Rattle.timegate.specs.declared.request.Request.{Request as Asked};
    ghost use Rattle.timegate.specs.declared.reply.Reply.{Reply as Answered};

    /// Holds for each reply to a request that a value which is now so may have given last.
    ghost shows: { Self → Asked → Answered → Type 0 };

    /// Holds if a value that was so may be so later.
    ghost follows: { Self → Self → Type 0 };

    /// Holds if a value of the type may be closed.
    ghost may_close: { Type 0 };

    /// The reply to a request.
    fn answer(&mut self, request: &Request) -> Result<Reply, GateFault>
        ensures shown { IfOk result (shows self.new request.now) }
        ensures later { follows self.old self.new }
        ensures closed { result ≡ Err GateFault.Closed → may_close };

    /// The reply to a request, or `None` if the reader may be better off later: something is under way by which the
    /// reply may change soon. `is_held` says that it was `None` before. Which replies there may be doesn't depend on
    /// it.
    fn answer_or_hold(
        &mut self,
        request: &Request,
        _is_held: bool,
    ) -> Result<Option<Reply>, GateFault>
        ensures shown { IfOk result (λ it. IfSome it (shows self.new request.now)) }
        ensures later { follows self.old self.new }
        ensures closed { result ≡ Err GateFault.Closed → may_close }
    {
        let reply = self.answer(request)?;
        Ok(Some(reply))
    }

    /// A value may stay as it is.
    ghost stays: { (it : Self) → follows it it };

    /// What a value may be later is so of all that came before.
    ghost goes_on: { (it then last : Self) → follows it then → follows then last → follows it last };
}

impl Answers for Gate {
    ghost use Rattle.std.specs.Prelude.{⊤};
    ghost use Rattle.gate_server.specs.Gates.{GoesOn, Shows};
    ghost use Rattle.gate_server.specs.GateLaws.{gate_goes_on, gate_stays};

    ghost shows = { Shows };

    ghost follows = { GoesOn };

    ghost may_close = { ⊤ };

    fn answer(&mut self, request: &Request) -> Result<Reply, GateFault> {
        Gate::answer(self, request)
    }

    ghost stays = { gate_stays };

    ghost goes_on = { gate_goes_on };
}
